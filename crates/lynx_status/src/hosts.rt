//! Which hosts are this machine, by the names that only it has.
ghost use Rattle.std.specs.Prelude.{◌≡◌};
ghost use Rattle.std.specs.Char.{is_ascii_digit};
ghost use Rattle.std.specs.List.{list_all};
ghost use Rattle.lynx_status.specs.Hosts.{is_at, is_local, is_port};

fn is_digit(byte: u8) -> bool
    ensures { result ≡ is_ascii_digit byte }
{
    byte.is_ascii_digit()
}

fn are_digits(bytes: &[u8]) -> bool
    ensures { result ≡ list_all is_ascii_digit bytes.now }
{
    bytes.iter().all(|byte| is_digit(*byte))
}

/// Whether this is nothing, or a colon and digits.
fn is_port(text: &[u8]) -> bool
    ensures { result ≡ is_port text.now }
{
    let [first, digits @ ..] = text else {
        return true;
    };
    *first == b':' && are_digits(digits)
}

/// Whether the field is of this host, in any case, and any port.
fn is_at(name: &[u8], field: &[u8]) -> bool
    ensures { result ≡ is_at name.now field.now }
{
    if field.len() < name.len() {
        return false;
    }
    let (host, port) = field.split_at(name.len());
    host.eq_ignore_ascii_case(name) && is_port(port)
}

/// Whether the field is of this machine, by a name that no other machine is reached by: a page of
/// another host that has a name for 127.0.0.1 isn't let in.
pub(crate) fn is_local(field: &[u8]) -> bool
    ensures { result ≡ is_local field.now }
{
    is_at(b"127.0.0.1", field) || is_at(b"localhost", field) || is_at(b"[::1]", field)
}
