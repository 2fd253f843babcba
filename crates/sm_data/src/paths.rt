//! The parts of the name of a file.
ghost use Rattle.std.specs.Prelude.{◌≡◌, option_map};
ghost use Rattle.sm_data.specs.Paths.{file_name, stem_of};

/// The part of a path after its last slash.
pub(crate) fn file_name(path: &[u8]) -> &[u8]
    ensures { result.now ≡ file_name path.now }
{
    let mut name = path;
    let mut rest = path;
    while let Some((first, more)) = rest.split_first() {
        if *first == b'/' {
            name = more;
        }
        rest = more;
    }
    name
}

/// What stands before an ending, if the name has it.
pub(crate) fn stem_of<'a>(ending: &[u8], name: &'a [u8]) -> Option<&'a [u8]>
    ensures { option_map (λ s. s.now) result ≡ stem_of ending.now name.now }
{
    name.strip_suffix(ending)
}
