//! What systemd is told of a server, where it has started it.
ghost use Rattle.std.specs.Prelude.{◌+◌, ◌≤◌, length};

use libc::net::{_SS_SIZE, AF_UNIX, MSG_NOSIGNAL, SOCK_CLOEXEC, SOCK_DGRAM, sendto, socket};
use std::rt::Env;

/// The variable that names its socket.
const NAME: &str = "NOTIFY_SOCKET";

/// Where the name of a socket stands in an address, behind the family.
const NAME_AT: usize = 2;

/// The most bytes of a socket's name.
const MOST: usize = 107;

/// The address of the socket at which systemd hears of a server.
#[derive(Drop)]
pub struct Supervisor {
    address: [u8; _SS_SIZE],
    len: u32,
    ghost within: { len ≤ 128 },
}

impl Supervisor {
    /// That of the environment, if it names one: a path, or behind `@` a name without a file.
    pub fn find<T: Env>(rt: &T) -> Option<Supervisor> {
        let mut name = [0u8; MOST];
        match rt.var(NAME, &mut name) {
            Ok(count) if count > 0 && count <= MOST => Some(Supervisor::at(&name[..count])),
            _ => None,
        }
    }

    /// The socket of this name.
    fn at(name: &[u8]) -> Supervisor
        requires { length name.now ≤ 107 }
    {
        let mut address = [0u8; _SS_SIZE];
        address[..NAME_AT].copy_from_slice(&(AF_UNIX as u16).to_ne_bytes());
        address[NAME_AT..NAME_AT + name.len()].copy_from_slice(name);
        if address[NAME_AT] == b'@' {
            address[NAME_AT] = 0;
        }
        Supervisor {
            address,
            len: (NAME_AT + name.len()) as u32,
        }
    }

    /// Tells it lines like `READY=1`. Where it doesn't hear them, nothing is done.
    pub fn tell(&self, lines: &[u8]) {
        let descriptor = unsafe { socket(AF_UNIX, SOCK_DGRAM | SOCK_CLOEXEC, 0) };
        if descriptor < 0 {
            return;
        }
        let _heard = unsafe { sendto(descriptor, lines, MSG_NOSIGNAL, &self.address, self.len) };
        let _closed = libc::close(descriptor);
    }
}
