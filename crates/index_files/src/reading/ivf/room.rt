ghost use Rattle.std.specs.Prelude.{◌≡◌};

use std::alloc::AllocError;

// For how many more elements of eight bytes room is made at a time.
const ROOM: usize = 8_192;

/// Makes room for an element that was read. It grows by steps of one size, so that a vector never
/// has much more room than for what was read.
pub fn make_room<T>(elements: &mut Vec<T>) -> Result<(), AllocError>
    ensures { elements.new.items ≡ elements.old.items }
{
    if elements.len() == elements.capacity() {
        elements.reserve_exact(ROOM)?;
    }
    Ok(())
}
