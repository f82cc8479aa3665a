//! Serves clients on the loopback.
ghost use Rattle.std.specs.Prelude.{◌≡◌, ◌⊎◌, IfErr, IfOk, IfSome, Some, is_some};
ghost use Rattle.sqlite.specs.Files.{over_files};
ghost use Rattle.desk_store.specs.Desks.{IsDesk};
ghost use Rattle.invdesk.specs.Clients.{ends_at_fault, IsInFile, IsOfServing, Offers, OffersTo};
ghost use Rattle.invdesk.specs.Clients.{ServesClients, served_by};
ghost use Rattle.invdesk.specs.Files.{Acts, NoneComes};
ghost use Rattle.invdesk.specs.Memory.{ServesInMemory};
ghost use Rattle.invdesk.specs.Statuses.{IsStatusOf};
ghost use Rattle.invdesk.specs.Works.{ServesDesk};

use crate::desk_file::{Worked, close_desk, open_desk, told_status};
use crate::held::OpenedFile;
use crate::page::{PAGE, POLICY};
use crate::seed::seed_of;
use crate::tell::tell_line;
use crate::token::{TokenFault, token_at};
use desk_app::{Advice, Books, BooksService, LineOptions, WatchedDesk};
use desk_cli::{FileFault, ServeWords, Task, status_of};
use desk_core::{RunEnd, Shop};
use desk_http::{Access, Clients, Page, Site, Token, serve_connections};
use desk_store::Desk;
use part_core::Limits;
use sqlite::{File, FileStore};
use sqlite_disk::Disk;
use std::alloc::{AllocError, Global};
use std::boxed::Box;
use std::io::{self, ErrorKind};
use std::net::{Ipv4Addr, TcpListener};
use std::time::{SystemTime, UNIX_EPOCH};

/// Says what failed, and tells how the run ends by it.
fn failed(rt: &HostRuntime, what: &str, error: &io::Error, end: RunEnd) -> RunEnd
    ensures { (result ≡ end) ⊎ (result ≡ RunEnd.Memory) }
{
    tell_line(rt, format_args!("{what}: {error}"));
    if error.kind() == ErrorKind::OutOfMemory {
        RunEnd::Memory
    } else {
        end
    }
}

/// The same of a port.
fn port_failed(rt: &HostRuntime, port: u16, error: &io::Error) -> RunEnd
    ensures { (result ≡ RunEnd.ReadFailed) ⊎ (result ≡ RunEnd.Memory) }
{
    match format!(in rt.alloc(); "127.0.0.1:{port}") {
        Ok(what) => failed(rt, what.as_str(), error, RunEnd::ReadFailed),
        Err(_) => RunEnd::Memory,
    }
}

/// The token in the file at the path, if one is named.
pub fn token_to_show(rt: &HostRuntime, path: Option<&str>) -> Result<Option<Token>, RunEnd>
    ensures there { IfOk result (λ token. is_some token ≡ is_some path.entry) }
    ensures in_file { IfOk result (λ token. IfSome token IsInFile) }
    ensures why { IfErr result (λ end.
        (end ≡ RunEnd.ReadFailed) ⊎ (end ≡ RunEnd.Memory)) }
{
    let Some(path) = path else {
        return Ok(None);
    };
    match token_at(rt, path) {
        Ok(token) => Ok(Some(token)),
        Err(TokenFault::Device(error)) => Err(failed(rt, path, &error, RunEnd::ReadFailed)),
        Err(fault) => {
            tell_line(rt, format_args!("{path}: {fault}"));
            Err(RunEnd::ReadFailed)
        }
    }
}

/// The page, where it is to be shown: its parts are joined in memory that is never freed, since it lasts as long as the
/// program.
fn page_to_show(alloc: Global, shown: bool) -> Result<Option<Page>, AllocError>
    ensures { IfOk result (λ page. is_some page ≡ shown) }
{
    if !shown {
        return Ok(None);
    }
    let mut text = String::new(alloc);
    for part in PAGE {
        text.push_str(part)?;
    }
    let text: &'static String = Box::leak(Box::new(alloc, text)?);
    Ok(Some(Page {
        text: text.as_str(),
        policy: POLICY,
    }))
}

/// What is offered at that port: to whoever shows this token, if there is one, and with the page or without it.
fn site(alloc: Global, port: u16, token: Option<Token>, page: bool) -> Result<Site, AllocError>
    ensures { IfOk result (Offers port token page) }
{
    Ok(Site {
        access: Access::new(alloc, port, token)?,
        page: page_to_show(alloc, page)?,
    })
}

/// The same with the token in the file at the path, if one is named.
fn site_for(rt: &HostRuntime, port: u16, path: Option<&str>, page: bool) -> Result<Site, RunEnd>
    ensures offers { IfOk result (OffersTo port (is_some path.entry) page) }
    ensures why { IfErr result (λ end.
        (end ≡ RunEnd.ReadFailed) ⊎ (end ≡ RunEnd.Memory)) }
{
    let token = token_to_show(rt, path)?;
    match site(rt.alloc(), port, token, page) {
        Ok(site) => Ok(site),
        Err(_) => Err(RunEnd::Memory),
    }
}

/// What tells this run of the program from every other: the nanoseconds since 1970, none where the clock can't say.
fn began(rt: &HostRuntime) -> Option<u64> {
    let now = SystemTime::now(rt).ok()?;
    let since = now.duration_since(UNIX_EPOCH).ok()?;
    u64::try_from(since.as_nanos()).ok()
}

/// Says at which address the service, and its page, can be asked for.
fn say_where(rt: &HostRuntime, port: u16, page: bool) -> io::Result<()> {
    println!(rt; "listening on 127.0.0.1:{port}")?;
    if page {
        println!(rt; "its page is http://127.0.0.1:{port}/")?;
    }
    Ok(())
}

/// Whether a serving ends once a fault has closed its books: with a page, where no count says when it ends.
fn ends_at_fault(page: bool, count: Option<u64>) -> bool
    ensures { result ≡ ends_at_fault page count }
{
    page && count.is_none()
}

/// How a serving ends to which no connection comes more: by a fault of its books, where it ends at one.
fn end_of_serving<B: Books>(ends_at_fault: bool, service: &BooksService<B>) -> RunEnd
    requires { B.are_kept service.now.books }
    ensures { IsOfServing ends_at_fault (B.failure_of service.now.books) result }
{
    if ends_at_fault && service.has_failed() {
        RunEnd::Store
    } else {
        RunEnd::Done(true)
    }
}

/// Serves so many connections, whatever each gives, or one after another until the program is stopped or the service is
/// over: it was asked to stop, or a fault has closed its books. It ends otherwise only where there is no token to ask for,
/// or it can't listen, accept or tell that it listens. What clients send, and what they get, is known to no clause.
fn serve<B: Books>(rt: &HostRuntime, how: ServeWords<'_>, service: &mut BooksService<B>) -> RunEnd
    requires { B.are_kept service.old.books }
    ensures kept { B.are_kept service.new.books }
    ensures serves { ServesClients B.state_in B.failure_of B.may_leave service.old.options
        how.entry service.old service.new result }
{
    let port = how.port;
    let site = match site_for(rt, port, how.token, how.page) {
        Ok(site) => site,
        Err(end) => return end,
    };
    let listener = match TcpListener::bind(rt, (Ipv4Addr::LOCALHOST, port)) {
        Ok(listener) => listener,
        Err(error) => return port_failed(rt, port, &error),
    };
    if let Err(error) = say_where(rt, port, how.page) {
        return failed(rt, "standard output", &error, RunEnd::WriteFailed);
    }
    let ends_at_fault = service.ends_at_fault;
    let count = how.count.unwrap_or(u64::MAX);
    let mut clients = Clients::of(listener);
    match serve_connections(rt, rt.alloc(), &mut clients, count, service, &site) {
        Ok(()) => end_of_serving(ends_at_fault, service),
        Err(error) => port_failed(rt, port, &error),
    }
}

/// How the lines of clients are taken.
fn served_by(how: &ServeWords<'_>) -> LineOptions
    ensures { result ≡ served_by how.now }
{
    LineOptions {
        names: how.names,
        journal: how.journal,
    }
}

/// What is said beside a fault of the database, while clients are served until one.
fn advice_to_clients(ends_at_fault: bool) -> Advice {
    if ends_at_fault {
        Advice::Ends
    } else {
        Advice::StartAgain
    }
}

/// Serves clients with the desk of this file, so many or until it is stopped, or, with a page and without a count, until a
/// fault closes the desk.
fn serve_on(
    rt: &HostRuntime,
    how: ServeWords<'_>,
    desk: Desk<FileStore<File>>,
    file: OpenedFile,
) -> Worked<FileStore<File>>
    requires { IsDesk over_files desk }
    ensures desk { IsDesk over_files result.0 }
    ensures serves { ServesDesk over_files how.entry desk result.0 result.1 }
{
    let ends = ends_at_fault(how.page, how.count);
    let watched = WatchedDesk::new(desk, file, advice_to_clients(ends), rt.stderr());
    let mut service = BooksService::ending_at_fault(watched, served_by(&how), began(rt), ends);
    let end = serve(rt, how, &mut service);
    (service.books.into_desk(), end)
}

/// Serves clients with the desk of the file, and tells how it ended, or why there is no desk.
pub fn serve_on_file(rt: &HostRuntime, path: &str, how: ServeWords<'_>) -> Result<RunEnd, FileFault>
    ensures acts { IfOk result (Acts ⟦<File as Disk>⟧ (Task.Serve (Some path.entry) how.entry)) }
    ensures none { IfErr result
        (NoneComes ⟦<File as Disk>⟧ (Task.Serve (Some path.entry) how.entry)) }
{
    let (desk, file) = open_desk(rt, path)?;
    let (desk, end) = serve_on(rt, how, desk, file);
    Ok(close_desk(rt, path, desk, end))
}

/// Serves clients with new books in memory.
pub fn serve_in_memory(rt: &HostRuntime, how: ServeWords<'_>) -> RunEnd
    ensures { ServesInMemory how.entry result }
{
    let books = Shop::new(rt.alloc(), seed_of(rt), Limits::LARGEST);
    let mut service = BooksService::new(books, served_by(&how), began(rt));
    serve(rt, how, &mut service)
}

/// The status of clients that are served, by the desk in the file, or by a new one in memory where none is named.
pub fn serve_status(rt: &HostRuntime, file: Option<&str>, how: ServeWords<'_>) -> u8
    ensures { IsStatusOf ⟦<File as Disk>⟧ (Task.Serve file.entry how.entry) result }
{
    match file {
        Some(path) => told_status(rt, path, serve_on_file(rt, path, how)),
        None => status_of(serve_in_memory(rt, how)),
    }
}
