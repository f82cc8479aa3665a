//! The file that was opened, and whether it still lies at its path. What lies there is known to no clause.
use desk_app::HeldFile;
use report_core::escaped;
use std::alloc::AllocError;
use std::fs;
use std::os::unix::fs::MetadataExt;

/// What tells a file from each other that is there: the device on which it lies, and its number there.
#[derive(Clone, Copy, PartialEq, Eq)]
struct Node {
    device: u64,
    number: u64,
}

/// The file at the path, or that to which the links there lead. Where none can be seen there is none.
fn node_at(rt: &HostRuntime, path: &str) -> Option<Node> {
    match fs::metadata(rt, path) {
        Ok(found) => Some(Node {
            device: found.dev(),
            number: found.ino(),
        }),
        Err(_) => None,
    }
}

/// A file at a path, and its name as it is told.
#[derive(Drop)]
pub struct OpenedFile {
    rt: HostRuntime,
    path: String,
    name: String,
    node: Option<Node>,
}

impl OpenedFile {
    /// The file at the path. It is looked at before it is opened, so that none is taken for it that comes there meanwhile.
    pub fn at(rt: &HostRuntime, path: &str) -> Result<OpenedFile, AllocError> {
        let name = escaped(rt.alloc(), path)?;
        let node = node_at(rt, path);
        let path = String::from_str(rt.alloc(), path)?;
        Ok(OpenedFile {
            rt: *rt,
            path,
            name,
            node,
        })
    }

    /// Looks at the file once it is open, where there was none before: opening it made it.
    pub fn note_if_made(&mut self) {
        if self.node.is_none() {
            self.node = node_at(&self.rt, self.path.as_str());
        }
    }
}

impl HeldFile for OpenedFile {
    fn name(&self) -> &str {
        self.name.as_str()
    }

    fn is_in_place(&self) -> bool {
        self.node.is_some() && node_at(&self.rt, self.path.as_str()) == self.node
    }
}
