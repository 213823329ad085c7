// Scripts to try, put together from parts.
use std::alloc::{AllocError, Global};

pub const LOOK: [u8; 9] = [2, 0, 0, 0, 0, 0, 0, 0, 7];

pub const PUT: [u8; 13] = [3, 0, 0, 0, 0, 0, 0, 0, 7, 0, 0, 0, 1];

/// Adds a part with so many times one operation.
pub fn add_part(
    bytes: &mut Vec<u8>,
    service: u8,
    count: usize,
    operation: &[u8],
) -> Result<(), AllocError> {
    bytes.extend_from_slice(&[1, service])?;
    for _ in 0..count {
        bytes.extend_from_slice(operation)?;
    }
    Ok(())
}

/// So many parts of the greatest size, 106 bytes each.
pub fn full_parts(heap: Global, count: u8) -> Result<Vec<u8>, AllocError> {
    let mut bytes = Vec::new(heap);
    for service in 0..count {
        add_part(&mut bytes, service, 8, &PUT)?;
    }
    Ok(bytes)
}
