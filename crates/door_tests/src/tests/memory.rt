// What no clause says of the forms in memory: that calls succeed, and their order.
use ebs_doors::{Accepted, Listener, MemoryConn, MemoryListener};
use ebs_model::Bytes;
use ebs_world::{Failed, MemorySink, MemorySource, Sink, Source};
use std::alloc::{AllocError, Global};
use std::test::Fail;

/// A connection with this input, in pieces of at most four bytes. The calls of these numbers fail, on each side.
pub fn conn_with(alloc: Global, input: &[u8], fail: &[u64]) -> Result<MemoryConn, AllocError> {
    let source = MemorySource::new(
        Bytes::from_slice(alloc, input)?,
        4,
        Vec::from_slice(alloc, fail)?,
    );
    let sink = MemorySink::new(alloc, Vec::from_slice(alloc, fail)?);
    Ok(MemoryConn::new(source, sink))
}

/// A listener over connections of one byte each.
pub fn listener_of(
    alloc: Global,
    names: &[u8],
    fail: &[u64],
) -> Result<MemoryListener<MemoryConn>, AllocError> {
    let mut list = Vec::new(alloc);
    for name in names {
        list.push(conn_with(alloc, &[*name], &[])?)?;
    }
    Ok(MemoryListener::new(list, Vec::from_slice(alloc, fail)?))
}

/// What a listener answered: the byte of its connection, a dot for the end, or a mark for a failure.
fn name_of(accepted: Accepted<MemoryConn>) -> u8 {
    match accepted {
        Accepted::Connection(mut conn) => {
            let mut room = [b'?'];
            let _ = conn.input.take(&mut room);
            room[0]
        }
        Accepted::Closed => b'.',
        Accepted::Failed => b'!',
    }
}

/// A listener's connections, the calls that fail, and what its calls answer.
type Listened = (&'static str, &'static [u64], &'static str);

const LISTENED: [Listened; 5] = [
    ("", &[], ".."),
    ("ab", &[], "ab.."),
    ("ab", &[0], "!ab."),
    ("ab", &[3, 1], "a!b!."),
    ("ab", &[2, 5, 9], "ab!..!"),
];

fn answers_so(alloc: Global, case: &Listened) -> Result<bool, AllocError> {
    let (names, fail, answers) = case;
    let mut listener = listener_of(alloc, names.as_bytes(), fail)?;
    for answer in answers.as_bytes() {
        if name_of(listener.accept()) != *answer {
            return Ok(false);
        }
    }
    Ok(true)
}

#[test]
fn a_listener_gives_its_list(rt: HostRuntime) -> Result<(), Fail> {
    for case in &LISTENED {
        assert!(rt; answers_so(rt.alloc(), case)?, "{}", case.2);
    }
    Ok(())
}

/// A call of a connection, and what it gives.
enum Call {
    Take(Result<&'static str, Failed>),
    Put(&'static str, Result<(), Failed>),
}

const CALLS: [Call; 8] = [
    Call::Take(Ok("abcd")),
    Call::Put("xy", Ok(())),
    Call::Take(Err(Failed)),
    Call::Put("zz", Err(Failed)),
    Call::Take(Ok("ef")),
    Call::Put("", Ok(())),
    Call::Take(Ok("")),
    Call::Put("w", Ok(())),
];

fn gives_so(conn: &mut MemoryConn, call: &Call) -> bool {
    let mut room = [0u8; 9];
    match call {
        Call::Put(piece, want) => conn.put(piece.as_bytes()) == *want,
        Call::Take(want) => match (conn.take(&mut room), want) {
            (Ok(count), Ok(bytes)) => &room[..count] == bytes.as_bytes(),
            (Err(_), Err(_)) => true,
            _ => false,
        },
    }
}

#[test]
fn a_connection_is_its_two_sides(rt: HostRuntime) -> Result<(), Fail> {
    let mut conn = conn_with(rt.alloc(), b"abcdef", &[1])?;
    for call in &CALLS {
        assert!(rt; gives_so(&mut conn, call));
    }
    assert!(rt; conn.bytes() == b"xyw".as_slice());
    Ok(())
}
