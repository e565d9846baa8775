// Blocks that are read.
use super::*;
use sha2::{Digest, Sha256};

const BLOCK_HEAD: &str =
    "HTTP/1.1 200 OK\r\nContent-Type: application/octet-stream\r\nContent-Length: 524288\r\nx-amz-Data-Length: 524288\r\nx-amz-Checksum: 4OHi4+Tl5ufo6err7O3u7/Dx8vP09fb3+Pn6+/z9/v8=\r\nx-amz-Checksum-Algorithm: SHA256\r\n\r\n";

/// A block of one byte.
fn filled(alloc: Global, byte: u8, size: usize) -> Result<Vec<u8>, AllocError> {
    Vec::from_elem(alloc, byte, size)
}

/// Whether a block of 524288 bytes has these ends.
fn has_ends(block: &[u8], first: &[u8], last: &[u8]) -> bool {
    block.len() == 524288 && block.starts_with(first) && block.ends_with(last)
}

/// A head, and the ends of the block behind it.
#[derive(Clone, Copy)]
struct Wanted<'a> {
    head: &'a str,
    first: &'a [u8],
    last: &'a [u8],
}

fn is_so(told: &Printed, want: Wanted) -> bool {
    told.text.as_slice() == want.head.as_bytes() && has_ends(told.block, want.first, want.last)
}

fn tells_block(alloc: Global, answer: &Answer, want: Wanted) -> bool {
    match printed(alloc, answer) {
        Ok(told) => {
            let so = is_so(&told, want);
            drop(told);
            so
        }
        Err(_) => false,
    }
}

/// Whether this is told of the answer, which ends here.
fn is_block(alloc: Global, made: Result<Answer, AllocError>, want: Wanted) -> bool {
    match made {
        Ok(answer) => {
            let so = tells_block(alloc, &answer, want);
            drop(answer);
            so
        }
        Err(_) => false,
    }
}

/// 524287 bytes of 7, and one of 255.
fn sevens(alloc: Global) -> Result<Answer, AllocError> {
    let mut bytes = filled(alloc, 7, 524287)?;
    bytes.push(255)?;
    Ok(Answer::BlockRead {
        digest: HIGH,
        bytes: Bytes::from_vec(bytes),
    })
}

const SEVENS: Wanted = Wanted {
    head: BLOCK_HEAD,
    first: &[7],
    last: &[255],
};

#[test]
fn a_block_that_is_read(rt: HostRuntime) {
    assert!(rt; is_block(rt.alloc(), sevens(rt.alloc()), SEVENS));
}

const ZERO_HEAD: &str =
    "HTTP/1.1 200 OK\r\nContent-Type: application/octet-stream\r\nContent-Length: 524288\r\nx-amz-Data-Length: 524288\r\nx-amz-Checksum: B4VNL+8pega6gWheZgwzLeNtXRjVRpJ9MNqtbX/aFUE=\r\nx-amz-Checksum-Algorithm: SHA256\r\n\r\n";

const ZEROS: Wanted = Wanted {
    head: ZERO_HEAD,
    first: &[0],
    last: &[0],
};

#[test]
fn a_block_that_was_never_written(rt: HostRuntime) {
    assert!(rt; is_block(rt.alloc(), Ok(Answer::ZeroBlockRead), ZEROS));
}

/// Whether what is told of the answer is this.
fn tells_as(alloc: Global, answer: &Answer, any: &Printed) -> bool {
    match printed(alloc, answer) {
        Ok(told) => {
            let so = told.text.as_slice() == any.text.as_slice() && told.block == any.block;
            drop(told);
            so
        }
        Err(_) => false,
    }
}

/// Whether what is told of the answer is what is told of a block of zeros that was never written.
fn tells_zeros(alloc: Global, answer: &Answer) -> bool {
    match printed(alloc, answer) {
        Ok(any) => {
            let so = tells_as(alloc, &Answer::ZeroBlockRead, &any);
            drop(any);
            so
        }
        Err(_) => false,
    }
}

fn are_zeros(alloc: Global, made: Result<Answer, AllocError>) -> bool {
    match made {
        Ok(answer) => {
            let so = tells_zeros(alloc, &answer);
            drop(answer);
            so
        }
        Err(_) => false,
    }
}

/// Any block of zeros, with its SHA-256.
fn zeros(alloc: Global) -> Result<Answer, AllocError> {
    let bytes = filled(alloc, 0, 524288)?;
    let digest = Sha256::digest(bytes.as_slice());
    Ok(Answer::BlockRead {
        digest,
        bytes: Bytes::from_vec(bytes),
    })
}

#[test]
fn a_block_of_zeros_is_told_as_any_block(rt: HostRuntime) {
    assert!(rt; are_zeros(rt.alloc(), zeros(rt.alloc())));
}
