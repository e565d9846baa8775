// What real sockets do, over loopback.
use ebs_doors::{Accepted, Listener, TcpConn, TcpDoor};
use ebs_world::{Failed, Sink, Source};
use std::io;
use std::io::{Read, Write};
use std::net::{Ipv4Addr, Shutdown, SocketAddr, TcpListener, TcpStream};
use std::test::Fail;

/// A listener at a port of loopback that is free.
pub fn listen(rt: &HostRuntime) -> io::Result<TcpListener> {
    TcpListener::bind(rt, SocketAddr::from((Ipv4Addr::LOCALHOST, 0)))
}

/// A client that has sent these bytes, and will send no more.
pub fn client(rt: &HostRuntime, listener: &TcpListener, bytes: &[u8]) -> io::Result<TcpStream> {
    let mut stream = TcpStream::connect(rt, listener.local_addr()?)?;
    stream.write_all(bytes)?;
    stream.shutdown(Shutdown::Write)?;
    Ok(stream)
}

/// How many bytes come in, all of them this one, before the input ends.
fn count_of(conn: &mut TcpConn, byte: u8) -> Result<usize, Failed> {
    let mut total = 0usize;
    let mut room = [0u8; 1000];
    for _ in 0..100 {
        match conn.input.take(&mut room)? {
            0 => return Ok(total),
            count if room[..count].iter().all(|b| *b == byte) => total = total.saturating_add(
                count,
            ),
            _ => return Err(Failed),
        }
    }
    Err(Failed)
}

#[test]
fn a_door_gives_connections_or_fails(rt: HostRuntime) -> Result<(), Fail> {
    let listener = listen(&rt)?;
    let mut clients = [
        client(&rt, &listener, &[7; 20000])?,
        client(&rt, &listener, &[])?,
    ];
    let mut door = TcpDoor::new(&listener);
    for (place, count) in [(0usize, 20000usize), (1, 0)] {
        let Accepted::Connection(mut conn) = door.accept() else {
            panic!(rt; "no connection")
        };
        assert!(rt; count_of(&mut conn, 7) == Ok(count));
        assert!(rt; conn.output.put(b"answer").is_ok());
        drop(conn);
        let mut told = [0u8; 9];
        assert!(rt; clients[place].read(&mut told)? == 6 && &told[..6] == b"answer".as_slice());
        assert!(rt; clients[place].read(&mut told)? == 0);
    }
    listener.set_nonblocking(true)?;
    assert!(rt; matches!(&door.accept(), Accepted::Failed));
    Ok(())
}

#[test]
fn a_connection_fails_where_its_stream_does(rt: HostRuntime) -> Result<(), Fail> {
    let listener = listen(&rt)?;
    let near = TcpStream::connect(&rt, listener.local_addr()?)?;
    let (far, _) = listener.accept()?;
    far.set_nonblocking(true)?;
    far.shutdown(Shutdown::Write)?;
    let mut conn = TcpConn::over(far);
    let mut room = [0u8; 8];
    assert!(rt; conn.input.take(&mut room) == Err(Failed));
    assert!(rt; conn.output.put(b"x") == Err(Failed));
    drop(near);
    Ok(())
}
