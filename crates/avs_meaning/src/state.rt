// Parts of the state of a run.
use avs_values::Value;
use fv_io::Text;
use fv_plane::Info;

/// A variable.
#[derive(Drop, Debug)]
pub struct Variable {
    pub name: Text,
    pub value: Value,
}

/// A clip that was opened, with the name of its file.
#[derive(Drop, Debug)]
pub struct SourceClip {
    pub name: Text,
    pub info: Info,
}
