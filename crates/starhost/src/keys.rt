//! The keys of a server: those of a file, which is read before it listens, and again where it changes.
ghost use Rattle.std.specs.Prelude.{◌≡◌, OnOk};
ghost use Rattle.sb_monitor.specs.Listening.{TellsPort};

use crate::fault::ProgramFault;
use crate::part_faults::unread;
use crate::server_context::{Entrance, ServerContext};
use crate::server_end::ServerEnd;
use crate::system::System;
use sb_host::Renewing;
use sb_keys::{AnyFiles, KeyFile, KeyFiles, KeyList, KeySource, KeyWatch, keys_at, tell_no_keys};
use sb_wire::Sink;

impl<'k, H: Renewing + Sync, T: System + Sync> ServerContext<'k, H, T>
where
    H::Session: Send,
{
    /// Serves clients that bring a key of the file at this path.
    pub(crate) fn with_keys<W: Sink>(
        &self,
        path: &str,
        writer: &mut W,
    ) -> Result<ServerEnd, ProgramFault>
        ensures { OnOk result (TellsPort (W.contents writer.old) (W.contents writer.new)) }
    {
        let file = KeyFile { rt: self.rt, path };
        self.with_lists::<AnyFiles, KeyFile<'_, '_, T>, W>(file, path, writer)
    }

    /// Serves clients that bring a key of the newest list of this source.
    fn with_lists<L: KeyFiles + Send + Sync, S: KeySource<L> + Drop, W: Sink>(
        &self,
        source: S,
        path: &str,
        writer: &mut W,
    ) -> Result<ServerEnd, ProgramFault>
        ensures { OnOk result (TellsPort (W.contents writer.old) (W.contents writer.new)) }
    {
        let stamp = source.stamp();
        let keys = match keys_at::<L, S>(self.alloc, &source) {
            Ok(keys) => keys,
            Err(why) => {
                tell_no_keys(self.log, path, &why);
                return Err(unread(&why));
            }
        };
        let list = KeyList::<L>::new(keys);
        let watch = KeyWatch::new(self.alloc, source, path, stamp, &list, self.log);
        let gate = Entrance {
            admission: &list,
            chore: &watch,
        };
        self.admit(gate, writer)
    }
}
