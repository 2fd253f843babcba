//! What a command line asks for.

/// What a command line asks for. Models, data files and logs are names of files.
#[derive(Debug, Drop)]
pub enum Request<'a> {
    /// A search: `solve MODEL [DATA ...] [--brief]`.
    Solve {
        model: &'a str,
        data_files: Vec<&'a str>,
        brief: bool,
    },
    /// A check of a log: `check MODEL [DATA ...] LOG`.
    Check {
        model: &'a str,
        data_files: Vec<&'a str>,
        log: &'a str,
    },
}
