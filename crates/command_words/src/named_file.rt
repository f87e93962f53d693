ghost use Rattle.std.specs.Prelude.{◌≡◌, List, ℕ};
ghost use Rattle.command_words.specs.Clashes.{same_file, same_node, same_path};
ghost use Rattle.command_words.specs.declared.named_file.NamedFile.{NamedFile};

use plain_text::Text;

/// A file that is there. No two files have one device and one number at a time.
#[derive(Clone, Copy)]
pub struct Node {
    /// The device that it is on.
    pub device: u64,
    /// Its number there, that of its inode.
    pub number: u64,
}

/// What is told of the file of a name.
#[derive(Drop)]
pub struct NamedFile {
    /// The file, where it is there.
    pub node: Option<Node>,
    /// Its path with no link in it, where that can be told: of a file that is there, or that is to be in a folder that
    /// is there.
    pub path: Option<Text>,
    /// It is a device that keeps nothing of what is written to it: `/dev/null`, or a terminal.
    pub keeps_nothing: bool,
}

/// What can tell of the files of names.
pub trait Names {
    /// What it may tell of a name.
    ghost may: { Self → List ℕ → NamedFile → Type 0 };

    /// The file of a name, as far as it can be told.
    fn tell_file(&self, name: &str) -> NamedFile
        ensures { may self.now name.now result };
}

/// Whether they are one file, which keeps what is written to it.
pub fn are_one(one: &NamedFile, other: &NamedFile) -> bool
    ensures { result ≡ same_file one.now other.now }
{
    !(one.keeps_nothing || other.keeps_nothing)
        && (are_one_node(one.node, other.node) || are_one_path(&one.path, &other.path))
}

fn are_one_node(one: Option<Node>, other: Option<Node>) -> bool
    ensures { result ≡ same_node one other }
{
    match (one, other) {
        (Some(one), Some(other)) => one.device == other.device && one.number == other.number,
        (Some(_), None) | (None, _) => false,
    }
}

fn are_one_path(one: &Option<Text>, other: &Option<Text>) -> bool
    ensures { result ≡ same_path one.now other.now }
{
    match (one, other) {
        (Some(one), Some(other)) => one.as_str() == other.as_str(),
        (Some(_), None) | (None, _) => false,
    }
}
