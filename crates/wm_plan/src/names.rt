//! Names that lines give to what they make.
ghost use Rattle.std.specs.Prelude.{◌≡◌, ◌&&◌, nat_le};
ghost use Rattle.std.specs.List.{list_all};
ghost use Rattle.std.specs.Str.{bytes_eq};
ghost use Rattle.wm_model.specs.Step.{is_name, latest, names_no_savepoint, names_no_workspace};

/// The most bytes that a name may have.
const NAME_LIMIT: usize = 30;

/// Whether the byte is plain: neither a control byte nor beyond ASCII.
fn is_plain(byte: u8) -> bool
    ensures { result ≡ (nat_le 32 byte && nat_le byte 126) }
{
    (32..=126).contains(&byte)
}

fn are_plain(bytes: &[u8]) -> bool
    ensures { result ≡ list_all (λ b. nat_le 32 b && nat_le b 126) bytes.now }
{
    bytes.iter().all(|byte| is_plain(*byte))
}

/// Whether these are 1 to 30 plain bytes.
pub fn is_name(name: &[u8]) -> bool
    ensures { result ≡ is_name name.now }
{
    (1 <= name.len() && name.len() <= NAME_LIMIT) && are_plain(name)
}

/// Whether views show the name in place of a workspace's.
pub fn names_no_workspace(name: &[u8]) -> bool
    ensures { result ≡ names_no_workspace name.now }
{
    name == b"BASE".as_slice() || name == b"DiffBase".as_slice()
}

/// Whether the name stands for what is newest.
pub fn is_latest(name: &[u8]) -> bool
    ensures { result ≡ bytes_eq name.now latest }
{
    name == b"LATEST".as_slice()
}

/// Whether no savepoint is given the name by its own line.
pub fn names_no_savepoint(name: &[u8]) -> bool
    ensures { result ≡ names_no_savepoint name.now }
{
    is_latest(name) || name.starts_with(b"ICP-")
}
