//! Links that lead out of the folder in which they stand.

use crate::names_in_folders::slash_after;
use crate::regular_files::is_same;
use std::alloc::{AllocError, Global};
use std::fs::Metadata;
use std::os::unix::fs::MetadataExt;
use std::rt::Files;

/// The folder that shows which user this process is of.
const OWN_PROCESS: &str = "/proc/self";

/// The user who may read all files.
const ROOT: u32 = 0;

/// The most links that are followed, as many as the system follows.
const MOST_LINKS: usize = 40;

/// A link on the way to a file that `grade` warns about.
#[derive(Drop)]
pub struct LinkOut {
    /// The path of the file that it leads to, if that is UTF-8 and still the file that was opened.
    pub target: Option<String>,
    /// Whether some link on the way is of another user than the file, the one who runs this, and root. Else it leads out of
    /// the folder in which it stands.
    pub is_of_another: bool,
}

/// Where the way of a path leads, and by whose links.
#[derive(Clone, Copy, Debug, PartialEq, Eq)]
enum Way {
    /// To the file, by links of its owner, of the one who runs this, and of root.
    Trusted,
    /// To some file, by a link of another user, or by one that does not say where it leads in UTF-8.
    OfAnother,
    /// To another file by now.
    Elsewhere,
}

/// What was found of the links of a path.
#[derive(Drop)]
pub(crate) enum FoundLink {
    /// None to warn about.
    Nothing,
    /// One to warn about.
    Out(LinkOut),
    /// The path leads to another file by now.
    Elsewhere,
}

/// The link of a path by which a file was opened of which the system says this: one of another user, or one that leads out
/// of its folder, among the folders of the path too. Where that can't be seen any more, it does.
pub(crate) fn link_out<F: Files>(
    alloc: Global,
    files: &F,
    path: &str,
    opened: &Metadata,
) -> Result<FoundLink, AllocError> {
    let mut links = Vec::new(alloc);
    match way_of(alloc, files, path, opened, &mut links)? {
        Way::Elsewhere => Ok(FoundLink::Elsewhere),
        Way::OfAnother => Ok(FoundLink::Out(LinkOut {
            target: target_of(alloc, files, path, opened),
            is_of_another: true,
        })),
        Way::Trusted if links.is_empty() => Ok(FoundLink::Nothing),
        Way::Trusted => out_of_folders(alloc, files, path, opened, &links),
    }
}

/// The link of a path, if the file stands neither in the folder of each of these links on its way, nor below it.
fn out_of_folders<F: Files>(
    alloc: Global,
    files: &F,
    path: &str,
    opened: &Metadata,
    links: &[String],
) -> Result<FoundLink, AllocError> {
    let target = target_of(alloc, files, path, opened);
    let stays = match &target {
        Some(target) => is_below_all(alloc, files, links, target.as_str())?,
        None => false,
    };
    Ok(if stays {
        FoundLink::Nothing
    } else {
        FoundLink::Out(LinkOut {
            target,
            is_of_another: false,
        })
    })
}

/// Where the way of a path leads now by which a file was opened, over the links among its folders, and over what each of
/// them leads to. The links that it goes over are added to `links`, but for folders that the system's root has linked.
fn way_of<F: Files>(
    alloc: Global,
    files: &F,
    path: &str,
    opened: &Metadata,
    links: &mut Vec<String>,
) -> Result<Way, AllocError> {
    let own = own_user(files);
    let mut place = String::from_str(alloc, path)?;
    for _ in 0..MOST_LINKS {
        let Some(end) = first_link(files, &place) else {
            return Ok(end_of_way(files, &place, opened));
        };
        let link = place.get(..end).unwrap_or("");
        let rest = place.get(end..).unwrap_or("");
        let Some(owner) = owner_of_link(files, link) else {
            return Ok(Way::OfAnother);
        };
        if owner != opened.uid() && owner != ROOT && Some(owner) != own {
            return Ok(Way::OfAnother);
        }
        let Ok(target) = files.read_link(alloc, link) else {
            return Ok(Way::OfAnother);
        };
        if owner != ROOT || own == Some(ROOT) || rest.is_empty() {
            links.push(String::from_str(alloc, link)?)?;
        }
        place = path_after_link(alloc, link, &target.into_string(), rest)?;
    }
    Ok(Way::OfAnother)
}

/// Whether a path without links is that of the file that was opened.
fn end_of_way<F: Files>(files: &F, place: &str, opened: &Metadata) -> Way {
    match files.symlink_metadata(place) {
        Ok(found) if is_same(&found, opened) => Way::Trusted,
        Ok(_) | Err(_) => Way::Elsewhere,
    }
}

/// Where the first symbolic link ends that a path goes through, or is.
fn first_link<F: Files>(files: &F, path: &str) -> Option<usize> {
    for (index, byte) in path.bytes().enumerate() {
        if byte == b'/' && is_link_at(files, path.get(..index).unwrap_or("")) {
            return Some(index);
        }
    }
    if is_link_at(files, path) {
        Some(path.len())
    } else {
        None
    }
}

/// Whether a path is that of a symbolic link.
fn is_link_at<F: Files>(files: &F, path: &str) -> bool {
    match files.symlink_metadata(path) {
        Ok(found) => found.is_symlink(),
        Err(_) => false,
    }
}

/// The user whose symbolic link a path is; None where it is none.
fn owner_of_link<F: Files>(files: &F, path: &str) -> Option<u32> {
    match files.symlink_metadata(path) {
        Ok(found) if found.is_symlink() => Some(found.uid()),
        Ok(_) | Err(_) => None,
    }
}

/// The path that a link leads to, with what stands after the link.
fn path_after_link(
    alloc: Global,
    link: &str,
    target: &str,
    rest: &str,
) -> Result<String, AllocError> {
    let folder = match link.rfind('/') {
        Some(slash) if !target.starts_with('/') => {
            link.get(..slash.saturating_add(1)).unwrap_or("")
        }
        Some(_) | None => "",
    };
    format!(in alloc; "{folder}{target}{rest}")
}

/// The path of the file that a path leads to now, if it is the one that was opened.
fn target_of<F: Files>(alloc: Global, files: &F, path: &str, opened: &Metadata) -> Option<String> {
    let target = files.canonicalize(alloc, path).ok()?.into_string();
    let found = files.symlink_metadata(target.as_str()).ok()?;
    if is_same(&found, opened) {
        Some(target)
    } else {
        None
    }
}

/// Whether a target stands in the folder of each of these paths, or below it.
fn is_below_all<F: Files>(
    alloc: Global,
    files: &F,
    paths: &[String],
    target: &str,
) -> Result<bool, AllocError> {
    for path in paths {
        if !is_below(alloc, files, path.as_str(), target)? {
            return Ok(false);
        }
    }
    Ok(true)
}

/// Whether a target stands in the folder of a path, or below it.
fn is_below<F: Files>(
    alloc: Global,
    files: &F,
    path: &str,
    target: &str,
) -> Result<bool, AllocError> {
    let folder = match path.rfind('/') {
        Some(0) => "/",
        Some(slash) => path.get(..slash).unwrap_or("."),
        None => ".",
    };
    match files.canonicalize(alloc, folder) {
        Ok(folder) => {
            let folder = folder.into_string();
            let slash = slash_after(folder.as_str());
            let front = format!(in alloc; "{folder}{slash}")?;
            Ok(target.starts_with(front.as_str()))
        }
        Err(_) => Ok(false),
    }
}

/// The user by whose rights this process opens files, if the system shows it.
fn own_user<F: Files>(files: &F) -> Option<u32> {
    match files.metadata(OWN_PROCESS) {
        Ok(found) => Some(found.uid()),
        Err(_) => None,
    }
}
