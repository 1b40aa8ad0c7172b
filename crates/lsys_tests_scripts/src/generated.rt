//! Scripts that are too long to be written out.
use std::alloc::{AllocError, Global};

/// A script whose image has 8,000 times so many symbols.
///
/// # Errors
///
/// Out of memory.
pub fn script_of_images(alloc: Global, symbols: usize) -> Result<Vec<u8>, AllocError> {
    let mut script = Vec::from_slice(alloc, b"axiom ")?;
    script.extend_from_slice(&vec![in alloc; b'A'; 1000]?)?;
    script.extend_from_slice(b"\nproduction d: A => AA\ndepth 3\nhom h: A => ")?;
    script.extend_from_slice(&vec![in alloc; b'F'; symbols]?)?;
    script.extend_from_slice(b"\nsegments\n")?;
    Ok(script)
}

/// A comment of 65,536 bytes, one of 65,537, and then an axiom.
///
/// # Errors
///
/// Out of memory.
pub fn long_lines(alloc: Global) -> Result<Vec<u8>, AllocError> {
    let letters = vec![in alloc; b'c'; 65_535]?;
    let mut script = Vec::from_slice(alloc, b";")?;
    script.extend_from_slice(&letters)?;
    script.extend_from_slice(b"\n;c")?;
    script.extend_from_slice(&letters)?;
    script.extend_from_slice(b"\naxiom A\n")?;
    Ok(script)
}
