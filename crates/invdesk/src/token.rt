//! The file of a token.
ghost use Rattle.std.specs.Prelude.{◌≡◌, IfOk};
ghost use Rattle.invdesk.specs.Clients.{IsInFile, fault_of_token_file, token_in};

use desk_cli::acting_user;
use desk_http::{Token, first_line};
use std::alloc::Global;
use std::fmt;
use std::fs::{self, File, Metadata, OpenFile};
use std::io::{self, Read};
use std::os::unix::fs::{MetadataExt, PermissionsExt};

/// What a file's mode gives to others than its owner.
const TO_OTHERS: u32 = 0o077;

/// How many bytes of the file are read: those of the longest token, its LF and one more.
const MOST: u64 = 130;

/// Why a file gives no token.
#[derive(Debug, Drop)]
pub enum TokenFault {
    /// It can't be opened or read.
    Device(io::Error),
    /// It is no regular file, but a folder, a pipe or a device.
    NoFile,
    /// It belongs to another user than the one that the program acts as, who may be root.
    Foreign,
    /// Its mode lets others than its owner in.
    Shared,
    /// Its first line is no token.
    NoToken,
}

impl fmt::Display for TokenFault {
    fn fmt<W: fmt::Write>(&self, f: &mut fmt::Formatter<W>) -> fmt::Result {
        match self {
            TokenFault::Device(error) => write!(f, "{error}"),
            TokenFault::NoFile => f.write_str("it is no file, but a folder, a pipe or a device"),
            TokenFault::Foreign => f.write_str(
                "the file is another user's, who knows the token then",
            ),
            TokenFault::Shared => f.write_str("others may use the file; 'chmod 600' ends that"),
            TokenFault::NoToken => {
                f.write_str("the first line isn't 32 to 128 visible characters of ASCII")
            }
        }
    }
}

impl From<io::Error> for TokenFault {
    fn from(error: io::Error) -> Self {
        TokenFault::Device(error)
    }
}

/// What is seen of the file of a token.
#[derive(Clone, Copy)]
struct TokenFile {
    /// It is a regular file.
    is_file: bool,
    /// It belongs to the user that the program acts as.
    is_own: bool,
    /// Its mode lets others in.
    is_shared: bool,
}

/// What is wrong with the file of a token: it has to be a regular one, the user's own, and to give nothing to others.
fn fault_of_token_file(file: TokenFile) -> Option<TokenFault>
    ensures { result ≡ fault_of_token_file file }
{
    if !file.is_file {
        return Some(TokenFault::NoFile);
    }
    if !file.is_own {
        return Some(TokenFault::Foreign);
    }
    if file.is_shared {
        return Some(TokenFault::Shared);
    }
    None
}

/// Why no token is taken of what this is said of.
fn look_at(found: &Metadata) -> Result<(), TokenFault> {
    let file = TokenFile {
        is_file: found.is_file(),
        is_own: found.uid() == acting_user(),
        is_shared: found.permissions().mode() & TO_OTHERS != 0,
    };
    match fault_of_token_file(file) {
        Some(fault) => Err(fault),
        None => Ok(()),
    }
}

/// The token in a file of these bytes: its first line, if that may be one.
fn token_of(bytes: Vec<u8>) -> Option<Token>
    ensures { result ≡ token_in bytes.items }
{
    let mut bytes = bytes;
    let line = first_line(&bytes).len();
    bytes.truncate(line);
    Token::new(bytes)
}

/// The token in an open file.
fn token_in(alloc: Global, file: File) -> Result<Token, TokenFault>
    ensures { IfOk result IsInFile }
{
    look_at(&file.metadata()?)?;
    let mut bytes = Vec::new(alloc);
    file.take(MOST).read_to_end(&mut bytes)?;
    token_of(bytes).ok_or(TokenFault::NoToken)
}

/// The token in the first line of the file at the path, which belongs to the user that the program acts as, and which none but
/// its owner may read or write. It is looked at before it is opened, as a pipe would be waited for until somebody writes into
/// it, and again once it is open, as another may lie there by then. Whoever may put a pipe there between the two can have the
/// program wait: it opens no file without waiting.
pub fn token_at(rt: &HostRuntime, path: &str) -> Result<Token, TokenFault>
    ensures { IfOk result IsInFile }
{
    look_at(&fs::metadata(rt, path)?)?;
    token_in(rt.alloc(), fs::open(rt, path)?)
}
