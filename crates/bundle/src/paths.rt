//! The form of paths.

ghost use Rattle.std.specs.Prelude.{◌≡◌, ◌<◌, take, length, is_some, IfSome, false};
ghost use Rattle.std.specs.List.{list_any};
ghost use Rattle.bundle.specs.Paths as model;
ghost use Rattle.bundle.specs.Forms.{EndsAt, IsPart};

/// The most bytes that a name has.
const MOST_NAME_BYTES: usize = 27;

/// The most bytes that a path has.
const MOST_PATH_BYTES: usize = 255;

/// What a path is, besides its names.
#[derive(Clone, Copy)]
pub struct Form {
    /// The place of its last slash.
    pub last_slash: usize,
    /// Whether it is too long, or a name of it.
    pub is_long: bool,
}

/// Where the first of a path's names ends.
#[derive(Clone, Copy)]
pub enum NameEnd {
    /// At a NUL.
    Nul,
    /// At a slash, which stands here.
    Slash(usize),
    /// With the path.
    Last,
}

/// What stands before a text's first slash.
#[derive(Clone, Copy)]
pub enum Part {
    /// No name.
    Bad,
    /// A name, and the slash stands here.
    Name(usize),
    /// A name. There is no slash.
    Last,
}

/// The form of a path, or None where a text isn't one: a slash and a name, and any further slashes and names. It goes over the
/// bytes once.
#[tactic(auto, unfolding(crate::specs::Paths::is_path, crate::specs::Paths::is_long))]
pub fn form_of(path: &[u8]) -> Option<Form>
    ensures path { is_some result ≡ model.is_path path.now }
    ensures long { IfSome result (λ form. form.is_long ≡ model.is_long path.now) }
    ensures parent { IfSome result (λ form. take form.last_slash path.now ≡ model.parent_of path.now) }
    ensures inside { IfSome result (λ form. form.last_slash < length path.now) }
{
    if path.first() != Some(&b'/') {
        return None;
    }
    let mut last_slash = 0;
    let mut is_long = MOST_PATH_BYTES < path.len();
    'names: loop {
        let rest = &path[last_slash + 1..];
        match first_part(rest) {
            Part::Bad => return None,
            Part::Name(end) => {
                is_long = is_long || MOST_NAME_BYTES < end;
                last_slash += 1 + end;
            }
            Part::Last => {
                is_long = is_long || MOST_NAME_BYTES < rest.len();
                return Some(Form {
                    last_slash,
                    is_long,
                });
            }
        }
    }
}

// What stands before the first slash, or all.
fn first_part(bytes: &[u8]) -> Part
    ensures { IsPart bytes.now result }
{
    match name_end(bytes) {
        NameEnd::Nul => Part::Bad,
        NameEnd::Slash(end) => {
            if is_name(&bytes[..end]) {
                Part::Name(end)
            } else {
                Part::Bad
            }
        }
        NameEnd::Last => {
            if is_name(bytes) {
                Part::Last
            } else {
                Part::Bad
            }
        }
    }
}

// Whether a text without NUL is a name.
#[tactic(auto, unfolding(crate::specs::Paths::is_name))]
fn is_name(name: &[u8]) -> bool
    requires { list_any model.is_nul name.now ≡ false }
    ensures { result ≡ model.is_name name.now }
{
    if name.is_empty() {
        return false;
    }
    name != b".".as_slice() && name != b"..".as_slice()
}

// The place of the first slash, where no NUL comes before it.
fn name_end(bytes: &[u8]) -> NameEnd
    ensures { EndsAt bytes.now result }
{
    for (i, byte) in bytes.iter().enumerate() {
        if *byte <= b'/' {
            if *byte == b'/' {
                return NameEnd::Slash(i);
            }
            if *byte == 0 {
                return NameEnd::Nul;
            }
        }
    }
    NameEnd::Last
}
