//! The order in which the files of a folder are taken.
ghost use Rattle.std.specs.Prelude.{map, IfOk};
ghost use Rattle.desk_drop.specs.Folder.{file_of};
ghost use Rattle.desk_drop.specs.Places.{IsOrder};

use crate::file::DropFile;
use std::alloc::{AllocError, Global};

/// The names of the files with their places among them, in order of the bytes of the names, and where two are equal, as the
/// files were handed over.
pub fn in_order<'a>(
    alloc: Global,
    files: &[DropFile<'a>],
) -> Result<Vec<(&'a [u8], usize)>, AllocError>
    ensures { IfOk result (λ places. IsOrder (map file_of files.now) (map (λ place. (place.0.now, place.1)) places.items)) }
{
    let mut places = Vec::with_capacity(alloc, files.len())?;
    'files: for (index, file) in files.iter().enumerate() {
        places.push((file.name.as_bytes(), index)).unwrap();
    }
    places.sort_unstable();
    Ok(places)
}
