// Lines with their replies.
use std::alloc::{AllocError, Global};

/// A line, and the reply to it without its last line feed. It is empty where there is none.
pub type Pair = (&'static str, &'static str);

// Appends a line, with its line feed.
fn push_line(text: &mut String, line: &str) -> Result<(), AllocError> {
    text.push_str(line)?;
    text.push('\n')
}

pub fn script_of(alloc: Global, pairs: &[Pair]) -> Result<String, AllocError> {
    let mut script = String::new(alloc);
    for (line, _) in pairs {
        push_line(&mut script, line)?;
    }
    Ok(script)
}

// The replies to the first lines.
pub fn replies_to(alloc: Global, pairs: &[Pair], lines: usize) -> Result<String, AllocError> {
    let mut replies = String::new(alloc);
    for (_, reply) in pairs.iter().take(lines) {
        if !reply.is_empty() {
            push_line(&mut replies, reply)?;
        }
    }
    Ok(replies)
}
