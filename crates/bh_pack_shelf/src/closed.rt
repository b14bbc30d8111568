//! The packs of a host in files, before they are opened.

ghost use Rattle.bh_pack_shelf.specs.Opened.{in_files};

use crate::opening::{Opening, open_shelf};
use crate::shelf::PackShelf;
use bh_pack_files::{Fault, Held, PackFile, PackFolder, folder_beside};
use bh_packs::place::Bounds;
use bh_shelf::closed::{ClosedPacks, Listed};
use std::alloc::AllocError;

/// The packs of a host in files: those in the folder beside its file. Nothing is asked of the folder before
/// they are opened.
#[derive(Drop)]
pub struct PackFiles<S: Held> {
    rt: HostRuntime,
    host: String,
    held: S,
    bounds: Bounds,
    opening: Opening,
}

impl<S: Held> PackFiles<S> {
    /// The packs of the host that has this path, to serve or change it. `S` stands for what their files held.
    pub fn new(
        rt: &HostRuntime,
        host: &str,
        held: S,
        bounds: Bounds,
    ) -> Result<PackFiles<S>, AllocError> {
        PackFiles::opened_to(rt, host, held, bounds, Opening::Serve)
    }

    /// The same to look at: nothing in the folder is removed as they are opened.
    pub fn to_look(
        rt: &HostRuntime,
        host: &str,
        held: S,
        bounds: Bounds,
    ) -> Result<PackFiles<S>, AllocError> {
        PackFiles::opened_to(rt, host, held, bounds, Opening::Look)
    }

    fn opened_to(
        rt: &HostRuntime,
        host: &str,
        held: S,
        bounds: Bounds,
        opening: Opening,
    ) -> Result<PackFiles<S>, AllocError> {
        Ok(PackFiles {
            rt: *rt,
            host: String::from_str(rt.alloc(), host)?,
            held,
            bounds,
            opening,
        })
    }
}

/// No folder is made. What `PackFolder` refuses is refused, and so are two rows of one pack, and a number that
/// isn't below the bound. A pack that no row names is nobody's: its file is removed, once each listed one was
/// found whole, unless they are opened to look.
impl<S: Held> ClosedPacks for PackFiles<S> {
    type Open = PackShelf<PackFile<S>, PackFolder<S>>;

    type Fault = Fault;

    ghost has = { λ _. in_files S.Held.held };

    fn open(self, listed: &[Listed]) -> Result<PackShelf<PackFile<S>, PackFolder<S>>, Fault> {
        let PackFiles {
            rt,
            host,
            held,
            bounds,
            opening,
        } = self;
        let shelf = open_shelf(&rt, host.as_str(), held, bounds, opening, listed)?;
        let folder = folder_beside(&rt, host.as_str())?;
        Ok(PackShelf {
            shelf,
            rt,
            bounds,
            folder,
        })
    }
}
