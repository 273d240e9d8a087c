ghost use Rattle.std.specs.Prelude.{◌≡◌, ◌+◌, ◌*◌, ◌/◌, ◌^◌, ◌≤◌, ◌<◌, IfOk, IsErrOf, IsTrue};
ghost use Rattle.std.specs.Prelude.{nat_abs, nat_lt, pos, true};
ghost use Rattle.bcodes.specs.Ranges.{is_dim, load_limit, IsDim};
ghost use Rattle.file_parts.specs.declared.role.Role.TheVariants.{Outermost};
ghost use Rattle.file_parts.specs.Feeding.{GivesField, IsTold, StaysOver, place, shelf_of};
ghost use Rattle.file_parts.specs.Fields.{code_size_field, count_field, dim_field, flag_field};
ghost use Rattle.file_parts.specs.Fields.{header, metric_field, rows_beside, takes_count};
ghost use Rattle.file_parts.specs.Fields.{takes_dim};
ghost use Rattle.file_parts.specs.Heads.{IsHead, header_of, metric_of, view_head, view_header};

use crate::{Feed, Head, Header, PartError, Reason, Role};
use bcodes::LOAD_LIMIT;
use outside::Shelf;

// Whether a code may have so many bits.
fn is_dim_number(d: u32) -> bool
    ensures { result ≡ is_dim d }
{
    d % 8 == 0 && (8 <= d && d <= 65_536)
}

impl Role {
    // Whether the outer header lets an inner one have so many bits.
    fn takes_dim(self, d: u32) -> bool
        ensures { result ≡ takes_dim self d }
    {
        match self {
            Role::Outermost => true,
            Role::Within { dim, .. } => d == dim,
            Role::Quantizer { dim, .. } => d == dim,
        }
    }

    // Whether the outer header lets an inner one have so many codes.
    fn takes_count(self, n: u64) -> bool
        ensures { result ≡ takes_count self n }
    {
        match self {
            Role::Outermost => true,
            Role::Within { count, .. } => n == count,
            Role::Quantizer {
                nlist,
                rows,
                flag,
                ..
            } => n <= nlist && (n == nlist || (!flag && rows == 0)),
        }
    }

    // The codes of the outer header that weigh beside those of an inner one.
    fn rows_beside(self) -> u64
        ensures { result ≡ rows_beside self }
    {
        match self {
            Role::Outermost | Role::Within { .. } => 0,
            Role::Quantizer { rows, .. } => rows,
        }
    }
}

// Whether so many codes of `d` bits weigh more than an index may.
fn is_heavy(rows: u64, n: u64, d: u32) -> bool
    requires { d ≤ 65536 }
    ensures { result ≡ nat_lt load_limit ((rows + n) * (d / 8 + 16)) }
{
    (rows as u128 + n as u128) * (d / 8 + 16) as u128 > LOAD_LIMIT as u128
}

#[tactic(auto, unfolding(crate::specs::Fields::dim_field), using(crate::proofs::FeedLemmas::checked_gives))]
fn read_dim<H: Shelf>(feed: &mut Feed<'_, H>, role: Role) -> Result<u32, PartError>
    requires { IsTrue (H.is_reading (shelf_of feed.old)) }
    ensures gives { GivesField H.contents (λ d. d) (dim_field role) feed.old feed.new result }
    ensures shelf { StaysOver H.contents H.is_reading H.faults feed.old feed.new
        (IsErrOf result PartError.Failed) }
    ensures range { IfOk result IsDim }
    ensures fits { IfOk result (λ d. takes_dim role d ≡ true) }
{
    let at = feed.at();
    let d = feed.u32()?;
    if !is_dim_number(d) || !role.takes_dim(d) {
        return Err(PartError::bad(at, Reason::Dim));
    }
    Ok(d)
}

#[tactic(auto, unfolding(crate::specs::Fields::code_size_field), using(crate::proofs::FeedLemmas::checked_gives))]
fn read_code_size<H: Shelf>(feed: &mut Feed<'_, H>, d: u32) -> Result<u32, PartError>
    requires { IsTrue (H.is_reading (shelf_of feed.old)) }
    ensures gives { GivesField H.contents (λ n. n) (code_size_field d) feed.old feed.new result }
    ensures shelf { StaysOver H.contents H.is_reading H.faults feed.old feed.new
        (IsErrOf result PartError.Failed) }
{
    let at = feed.at();
    let size = feed.u32()?;
    if size != d / 8 {
        return Err(PartError::bad(at, Reason::CodeSize));
    }
    Ok(size)
}

#[tactic(auto, unfolding(crate::specs::Fields::count_field), using(crate::proofs::FeedLemmas::checked_gives))]
fn read_count<H: Shelf>(feed: &mut Feed<'_, H>, role: Role, d: u32) -> Result<u64, PartError>
    requires reading { IsTrue (H.is_reading (shelf_of feed.old)) }
    requires dim { d ≤ 65536 }
    ensures gives { GivesField H.contents (λ n. n) (count_field role d) feed.old feed.new result }
    ensures shelf { StaysOver H.contents H.is_reading H.faults feed.old feed.new
        (IsErrOf result PartError.Failed) }
    ensures fits { IfOk result (λ n. takes_count role n ≡ true) }
    ensures load { IfOk result (λ n. (rows_beside role + n) * (d / 8 + 16) ≤ load_limit) }
    ensures small { IfOk result (λ n. n < 2 ^ 63) }
{
    let at = feed.at();
    let n = feed.u64()?;
    if 1 << 63 <= n || !role.takes_count(n) {
        return Err(PartError::bad(at, Reason::Count));
    }
    if is_heavy(role.rows_beside(), n, d) {
        return Err(PartError::bad(at, Reason::Load));
    }
    Ok(n)
}

#[tactic(auto, unfolding(crate::specs::Fields::flag_field), using(crate::proofs::FeedLemmas::checked_gives))]
fn read_flag<H: Shelf>(feed: &mut Feed<'_, H>) -> Result<u8, PartError>
    requires { IsTrue (H.is_reading (shelf_of feed.old)) }
    ensures gives { GivesField H.contents (λ n. n) flag_field feed.old feed.new result }
    ensures shelf { StaysOver H.contents H.is_reading H.faults feed.old feed.new
        (IsErrOf result PartError.Failed) }
{
    let at = feed.at();
    let flag = feed.byte()?;
    if flag > 1 {
        return Err(PartError::bad(at, Reason::Flag));
    }
    Ok(flag)
}

#[tactic(auto, unfolding(crate::specs::Fields::metric_field), using(crate::proofs::FeedLemmas::checked_gives))]
fn read_metric<H: Shelf>(feed: &mut Feed<'_, H>) -> Result<u32, PartError>
    requires { IsTrue (H.is_reading (shelf_of feed.old)) }
    ensures gives { GivesField H.contents (λ n. n) metric_field feed.old feed.new result }
    ensures shelf { StaysOver H.contents H.is_reading H.faults feed.old feed.new
        (IsErrOf result PartError.Failed) }
    ensures small { IfOk result (λ n. n ≤ 1) }
{
    let at = feed.at();
    let metric = feed.u32()?;
    if metric > 1 {
        return Err(PartError::bad(at, Reason::Metric));
    }
    Ok(metric)
}

// The header of an index that stands in this role, and its metric.
#[tactic(auto, unfolding(crate::specs::Fields::header), using(crate::proofs::Reading::run_then, crate::proofs::HeadLemmas::metric_stands))]
fn read_header<H: Shelf>(feed: &mut Feed<'_, H>, role: Role) -> Result<(Head, u32), PartError>
    requires { IsTrue (H.is_reading (shelf_of feed.old)) }
    ensures gives { GivesField H.contents (λ read. view_head read.0) (header role)
        feed.old feed.new result }
    ensures shelf { StaysOver H.contents H.is_reading H.faults feed.old feed.new
        (IsErrOf result PartError.Failed) }
    ensures fits { IfOk result (λ read. IsHead role read.0) }
    ensures metric { IfOk result (λ read. IsTold (H.contents (shelf_of feed.old))
        → read.1 ≡ metric_of (place H.contents feed.old).bytes) }
    ensures small { IfOk result (λ read. read.1 ≤ 1) }
{
    let dim = read_dim(feed, role)?;
    read_code_size(feed, dim)?;
    let count = read_count(feed, role, dim)?;
    let flag = read_flag(feed)?;
    let metric = read_metric(feed)?;
    let head = Head {
        dim,
        count,
        flag: flag == 1,
    };
    Ok((head, metric))
}

impl<'s, H: Shelf> Feed<'s, H> {
    /// Takes the header of an index that stands in this role.
    ///
    /// # Errors
    ///
    /// `Bad` with the first fault of the five fields; `Failed` if the shelf fails; `Memory` if
    /// memory runs out.
    pub fn head(&mut self, role: Role) -> Result<Head, PartError>
        requires { IsTrue (H.is_reading (shelf_of self.old)) }
        ensures gives { GivesField H.contents view_head (header role) self.old self.new result }
        ensures shelf { StaysOver H.contents H.is_reading H.faults self.old self.new
            (IsErrOf result PartError.Failed) }
        ensures fits { IfOk result (IsHead role) }
    {
        let (head, _) = read_header(self, role)?;
        Ok(head)
    }

    /// Takes the header of a whole file.
    ///
    /// # Errors
    ///
    /// As [`Feed::head`], by the checks of a header that stands in no other.
    pub fn header(&mut self) -> Result<Header, PartError>
        requires { IsTrue (H.is_reading (shelf_of self.old)) }
        ensures gives { GivesField H.contents view_header (header Outermost)
            self.old self.new result }
        ensures shelf { StaysOver H.contents H.is_reading H.faults self.old self.new
            (IsErrOf result PartError.Failed) }
        ensures fields { IfOk result (λ h. h ≡ header_of (view_header h) (nat_abs h.metric)) }
        ensures metric { IfOk result (λ h. IsTold (H.contents (shelf_of self.old))
            → h.metric ≡ pos (metric_of (place H.contents self.old).bytes)) }
    {
        let (head, metric) = read_header(self, Role::Outermost)?;
        Ok(Header {
            d: head.dim as i32,
            code_size: (head.dim / 8) as i32,
            ntotal: head.count as i64,
            trained: head.flag,
            metric: metric as i32,
        })
    }
}
