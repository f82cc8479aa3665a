//! What a target names of which something may be said behind a `?`: a list, lines, a file that is read loosely; and that the
//! service stops or all tables are dumped, of which nothing is.
ghost use Rattle.std.specs.Prelude.{◌≡◌, ◌<◌, IfSome, length, option_map};
ghost use Rattle.std.specs.List.{list_all};
ghost use Rattle.desk_http.specs.Targets.{asked, asked_resource, first_of, is_list_byte, is_list_name};
ghost use Rattle.desk_http.specs.Targets.{list_at, list_resource, some_text, where_it, worded_list};
ghost use Rattle.desk_http.specs.Targets.{lines_at, loose_at, path_resource, place_in, some_resource};
ghost use Rattle.desk_http.specs.Targets.{alone_at, unsaid_at, IsProper};

use crate::query::{ListWords, Query, read_query};
use crate::target::{Target, read_import, split};

#[tactic(auto, unfolding(crate::specs::Targets::place_in))]
fn find_mark(bytes: &[u8]) -> Option<usize>
    ensures at { result ≡ place_in 63 bytes.now }
    ensures within { IfSome result (λ i. i < length bytes.now) }
{
    for (i, b) in bytes.iter().enumerate() {
        if *b == b'?' {
            return Some(i);
        }
    }
    None
}

/// The path of a target, and what is said of it.
#[tactic(auto, using(crate::proofs::Numbers::from_index))]
fn split_query(target: &[u8]) -> Option<(&[u8], Query)>
    ensures { option_map (λ parts. (parts.0.now, parts.1)) result ≡ asked target.now }
{
    match find_mark(target) {
        None => Some((target, Query::UNSAID)),
        Some(i) => {
            let said = read_query(&target[i + 1..])?;
            Some((&target[..i], said))
        }
    }
}

fn is_list_byte(b: u8) -> bool
    ensures { result ≡ is_list_byte b }
{
    b.is_ascii_lowercase() || b == b'-'
}

fn are_list_name(bytes: &[u8]) -> bool
    ensures { result ≡ list_all is_list_byte bytes.now }
{
    bytes.iter().all(|b| is_list_byte(*b))
}

/// Whether a list may be called so.
fn is_list_name(bytes: &[u8]) -> bool
    ensures { result ≡ is_list_name bytes.now }
{
    0 < bytes.len() && are_list_name(bytes)
}

/// The name of a list, where the bytes may be one.
fn read_list_name(bytes: &[u8]) -> Option<&str>
    ensures { some_text result ≡ where_it is_list_name bytes.now }
{
    if !is_list_name(bytes) {
        return None;
    }
    match str::from_utf8(bytes) {
        Ok(text) => Some(text),
        Err(_) => None,
    }
}

/// The list of a name, of what a word says, which has a byte or more.
fn with_word<'b>(name: &'b str, word: &'b [u8], said: ListWords) -> Option<Target<'b>>
    ensures value { some_resource result ≡ worded_list name.now word.now said }
    ensures proper { IfSome result IsProper }
{
    if word.is_empty() {
        return None;
    }
    Some(Target::Show(name, Some(word), said))
}

/// What stands behind `/show/`: the name of a list, or that and a word.
fn read_list(path: &[u8], said: ListWords) -> Option<Target>
    ensures value { some_resource result ≡ list_resource path.now said }
    ensures proper { IfSome result IsProper }
{
    match split(path) {
        None => {
            let name = read_list_name(path)?;
            Some(Target::Show(name, None, said))
        }
        Some((name_part, word)) => {
            let name = read_list_name(name_part)?;
            with_word(name, word, said)
        }
    }
}

/// The list that a path names.
fn read_list_path(path: &[u8], said: Query) -> Option<Target>
    ensures value { some_resource result ≡ list_at path.now said }
    ensures proper { IfSome result IsProper }
{
    match path.strip_prefix(b"/show/".as_slice()) {
        Some(list) => {
            let said = said.of_list()?;
            read_list(list, said)
        }
        None => None,
    }
}

/// The service that runs lines, where a path names it.
fn read_lines_path(path: &[u8], said: Query) -> Option<Target>
    ensures value { some_resource result ≡ lines_at path.now said }
    ensures proper { IfSome result IsProper }
{
    if path == b"/lines".as_slice() {
        let said = said.of_lines()?;
        Some(Target::RunAll(said))
    } else {
        None
    }
}

/// The import of a file that is read loosely.
fn read_loose_path(path: &[u8], said: Query) -> Option<Target>
    ensures value { some_resource result ≡ loose_at path.now said }
    ensures proper { IfSome result IsProper }
{
    if !said.is_loose() {
        return None;
    }
    match path.strip_prefix(b"/import/".as_slice()) {
        Some(file) => read_import(true, file),
        None => None,
    }
}

/// That the service stops, or that all tables are dumped.
fn read_alone(path: &[u8]) -> Option<Target>
    ensures value { some_resource result ≡ alone_at path.now }
    ensures proper { IfSome result IsProper }
{
    if path == b"/stop".as_slice() {
        Some(Target::Stop)
    } else if path == b"/dump".as_slice() {
        Some(Target::Dump)
    } else {
        None
    }
}

/// What a path names of which nothing is said.
fn read_unsaid_path(path: &[u8], said: Query) -> Option<Target>
    ensures value { some_resource result ≡ unsaid_at path.now said }
    ensures proper { IfSome result IsProper }
{
    if said.is_unsaid() {
        read_alone(path)
    } else {
        None
    }
}

/// What a path names that is no list and no lines.
fn read_rest(path: &[u8], said: Query) -> Option<Target>
    ensures value { some_resource result
        ≡ first_of (loose_at path.now said) (unsaid_at path.now said) }
    ensures proper { IfSome result IsProper }
{
    match read_loose_path(path, said) {
        Some(loose) => Some(loose),
        None => read_unsaid_path(path, said),
    }
}

/// What a path names that is no list.
fn read_work(path: &[u8], said: Query) -> Option<Target>
    ensures value { some_resource result ≡ first_of (lines_at path.now said)
        (first_of (loose_at path.now said) (unsaid_at path.now said)) }
    ensures proper { IfSome result IsProper }
{
    match read_lines_path(path, said) {
        Some(lines) => Some(lines),
        None => read_rest(path, said),
    }
}

/// What a path names of which this is said.
fn read_path(path: &[u8], said: Query) -> Option<Target>
    ensures value { some_resource result ≡ path_resource path.now said }
    ensures proper { IfSome result IsProper }
{
    match read_list_path(path, said) {
        Some(list) => Some(list),
        None => read_work(path, said),
    }
}

/// What a whole target names of which something may be said.
pub fn read_asked(target: &[u8]) -> Option<Target>
    ensures value { some_resource result ≡ asked_resource target.now }
    ensures proper { IfSome result IsProper }
{
    let (path, said) = split_query(target)?;
    read_path(path, said)
}
