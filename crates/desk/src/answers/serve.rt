//! `desk serve`.
ghost use Rattle.std.specs.Prelude.{◌≡◌, ◌⊎◌, true, false, None, IfOk, OnErr, OnOk};
ghost use Rattle.std.specs.Io.KnownBytes.{Appends};
ghost use Rattle.desk_rules.specs.Books.{Books};
ghost use Rattle.desk_rules.specs.declared.limits.TheConstants.{MOST_ENTRIES};
ghost use Rattle.desk_register.specs.View.{IsLater};
ghost use Rattle.desk_book.specs.Held.{Holds};
ghost use Rattle.desk_http.specs.Served.{Serves};
ghost use Rattle.desk.specs.ServeAnswer.{HoldsOn, IsServeAnswer, listening_line};

use crate::status::{Failure, Status, tell_failure};
use crate::teller::{Crier, Failing, Watch};
use desk_book::Desk;
use desk_http::{Routes, serve_one};
use desk_register::Register;
use desk_rules::MOST_ENTRIES;
use desk_streams::{CHUNK, Sink};
use memory_register::ListRegister;
use std::alloc::Global;
use std::io::{self, Read};
use std::net::{Ipv4Addr, Net, Shutdown, TcpListener, TcpStream};
use std::rt::HostRuntime;
use std::time::Duration;

/// So many seconds may a read, or a write, of a connection wait for its client.
const PATIENCE: u64 = 10;

/// So many seconds may a read wait for what a client still sends, once it is served.
const LAST_PATIENCE: u64 = 1;

/// So many reads, of `CHUNK` bytes, take in at most what a client still sends.
const MOST_LAST_READS: usize = 1024;

/// Serves so many connections at a port of 127.0.0.1, one after another, on a new desk in memory, once it has told that it
/// listens. A connection that fails, and one that could not be accepted, counts and is passed over. `fault 60` tells that
/// memory is wanting for the routes, and `fault io` that it could not listen; why is told on standard error.
pub fn answer_serve<W: Sink>(
    rt: &HostRuntime,
    port: u16,
    count: u32,
    writer: &mut W,
) -> io::Result<Status>
    ensures told { IfOk result (λ status. IsServeAnswer port status (Appends (W.contents writer.old) (W.contents writer.new))) }
    ensures failed { OnErr result (W.may_fail ≡ true) }
{
    let alloc = rt.alloc();
    let mut desk = Desk::new(ListRegister::new(alloc, MOST_ENTRIES));
    serve_desk(rt, alloc, port, count, &mut desk, &mut Crier { rt }, writer)
}

/// Serves so many connections on a desk, once it has told where it listens.
pub fn serve_desk<
    N: Net<Listener = TcpListener, Stream = TcpStream>,
    D: Register + Failing + Drop,
    P: Watch,
    W: Sink,
>(
    net: &N,
    alloc: Global,
    port: u16,
    count: u32,
    desk: &mut Desk<D>,
    watch: &mut P,
    writer: &mut W,
) -> io::Result<Status>
    ensures told { IfOk result (λ status. IsServeAnswer port status (Appends (W.contents writer.old) (W.contents writer.new))) }
    ensures keeps { (D.view desk.new.register).is_honest → HoldsOn desk.old.is_closed (D.view desk.old.register) desk.new.is_closed (D.view desk.new.register) }
    ensures later { IsLater (D.view desk.old.register) (D.view desk.new.register) }
    ensures failed { OnErr result (W.may_fail ≡ true) }
{
    let Ok(routes) = Routes::new(alloc) else {
        return tell_failure(Failure::Memory, writer);
    };
    let bound = TcpListener::bind(net, (Ipv4Addr::LOCALHOST, port));
    watch.bound(port, &bound);
    let Ok(listener) = bound else {
        return tell_failure(Failure::Input, writer);
    };
    tell_port(port, writer)?;
    serve_all(alloc, &routes, &listener, count, desk, watch);
    Ok(Status::Done)
}

/// Serves so many connections, one after another, of which those that could not be accepted are passed over.
fn serve_all<D: Register + Failing + Drop, P: Watch>(
    alloc: Global,
    routes: &Routes,
    listener: &TcpListener,
    count: u32,
    desk: &mut Desk<D>,
    watch: &mut P,
)
    ensures keeps { (D.view desk.new.register).is_honest → HoldsOn desk.old.is_closed (D.view desk.old.register) desk.new.is_closed (D.view desk.new.register) }
    ensures later { IsLater (D.view desk.old.register) (D.view desk.new.register) }
    ensures open { D.in_memory ≡ true → desk.old.is_closed ≡ false → desk.new.is_closed ≡ false }
{
    'connections: for _ in 0..count {
        if let Ok((stream, _)) = listener.accept() {
            serve_stream(alloc, routes, &stream, desk);
            see_off(&stream);
            watch.look(desk.is_closed(), desk.register().failures());
        }
    }
}

/// Tells where clients may come, at once.
fn tell_port<W: Sink>(port: u16, writer: &mut W) -> io::Result<()>
    ensures written { OnOk result (Appends (W.contents writer.old) (W.contents writer.new) (listening_line port)) }
    ensures failed { OnErr result (W.may_fail ≡ true) }
{
    writer.put_text(format_args!("listening {port}\n"))?;
    writer.send()
}

/// Serves one connection, whose client may keep a read or a write waiting so long. A fault is passed over: nothing was
/// asked, or what was asked stands.
fn serve_stream<D: Register + Drop>(
    alloc: Global,
    routes: &Routes,
    stream: &TcpStream,
    desk: &mut Desk<D>,
)
    ensures served { (D.view desk.new.register).is_honest → (books : Books) → Holds desk.old.is_closed (D.view desk.old.register) books
        → (desk.new ≡ desk.old) ⊎ Serves desk.old.is_closed books None desk.new.is_closed (D.view desk.old.register) (D.view desk.new.register) }
    ensures later { IsLater (D.view desk.old.register) (D.view desk.new.register) }
    ensures open { D.in_memory ≡ true → desk.old.is_closed ≡ false → desk.new.is_closed ≡ false }
{
    let patience = Some(Duration::from_secs(PATIENCE));
    if stream.set_read_timeout(patience).is_err() || stream.set_write_timeout(patience).is_err() {
        return;
    }
    let mut reader = stream;
    let mut writer = stream;
    let _ = serve_one(alloc, routes, &mut reader, &mut writer, desk);
}

/// Tells a client that nothing more comes, and takes in what it still sends, within bounds, until it has closed (RFC 9112,
/// section 9.6). A connection that is closed with bytes unread is reset, and its client may lose the answer.
fn see_off(stream: &TcpStream) {
    let patience = Some(Duration::from_secs(LAST_PATIENCE));
    if stream.shutdown(Shutdown::Write).is_err() || stream.set_read_timeout(patience).is_err() {
        return;
    }
    let mut reader = stream;
    let mut chunk = [0; CHUNK];
    for _ in 0..MOST_LAST_READS {
        match reader.read(&mut chunk) {
            Ok(0) | Err(_) => return,
            Ok(_) => {}
        }
    }
}
