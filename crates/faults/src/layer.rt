// The layer of the product that refuses.
use std::fmt;

#[derive(Clone, Copy, Debug, PartialEq, Eq)]
pub enum Layer {
    Hex,
    Frame,
    Editor,
}

impl fmt::Display for Layer {
    fn fmt<W: fmt::Write>(&self, f: &mut fmt::Formatter<W>) -> fmt::Result {
        f.write_str(match self {
            Layer::Hex => "hex",
            Layer::Frame => "frame",
            Layer::Editor => "editor",
        })
    }
}
