//! The files in folders.

use crate::globs::Globs;
use crate::refusal::Refusal;
use std::alloc::{AllocError, Global};
use std::rt::Files;
use std::{fs, io};

/// Which files in folders are searched.
#[derive(Drop)]
pub(crate) struct Chosen {
    pub include: Globs,
    pub exclude: Globs,
}

impl Chosen {
    /// Whether a file of this name is searched.
    pub fn takes(&self, name: &str) -> Result<bool, Refusal> {
        let is_included = self.include.is_empty() || self.include.fit(name)?;
        Ok(is_included && !self.exclude.fit(name)?)
    }
}

/// What stands at a path.
#[derive(Clone, Copy, Debug, PartialEq, Eq)]
pub(crate) enum Kind {
    File,
    Folder,
    /// A link, which is not followed, or what is neither file nor folder.
    Other,
}

/// The name of the last part of a path.
pub(crate) fn last_name(path: &str) -> &str {
    match path.rsplit_once('/') {
        Some((_, name)) => name,
        None => path,
    }
}

/// The path of a name in a folder. The empty path is the folder where the program runs.
pub(crate) fn joined(alloc: Global, folder: &str, name: &str) -> Result<String, AllocError> {
    if folder.is_empty() || folder.ends_with('/') {
        format!(in alloc; "{folder}{name}")
    } else {
        format!(in alloc; "{folder}/{name}")
    }
}

/// What stands at a path; of a link what it leads to, where `follows` says so.
pub(crate) fn kind_of(rt: &impl Files, path: &str, follows: bool) -> io::Result<Kind> {
    let metadata = if follows {
        fs::metadata(rt, path)?
    } else {
        fs::symlink_metadata(rt, path)?
    };
    Ok(if metadata.is_dir() {
        Kind::Folder
    } else if metadata.is_file() || follows {
        Kind::File
    } else {
        Kind::Other
    })
}

/// The names in a folder, sorted, and the first error of reading one.
pub(crate) fn names_in<R: Files + AllocGlobal + Clone + Drop>(
    rt: &R,
    folder: &str,
) -> io::Result<(Vec<String>, Option<io::Error>)> {
    let alloc = rt.alloc();
    let path = if folder.is_empty() { "." } else { folder };
    let mut names = Vec::new(alloc);
    let mut error = None;
    for entry in fs::read_dir(rt, path)? {
        match entry {
            Ok(entry) => names.push(String::from_str(alloc, entry.file_name())?)?,
            Err(unread) => error = Some(unread),
        }
    }
    names.sort_unstable();
    Ok((names, error))
}
