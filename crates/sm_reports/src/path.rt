//! Paths of files.
ghost use Rattle.std.specs.Prelude.{◌≡◌};
ghost use Rattle.sm_data.specs.Paths.{file_name};

/// The part of a path after its last slash.
pub(crate) fn file_name(path: &[u8]) -> &[u8]
    ensures { result.now ≡ file_name path.now }
{
    let mut name = path;
    let mut rest = path;
    while let Some((first, more)) = rest.split_first() {
        if *first == b'/' {
            name = more;
        }
        rest = more;
    }
    name
}
