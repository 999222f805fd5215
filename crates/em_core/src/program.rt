use crate::definition::TypeDef;
use crate::function::Function;
use crate::methods::Methods;
use em_base::{List, Place};

/// A package with all its dependencies, elaborated. Numbers of types and functions are places in these lists.
#[derive(Drop)]
pub struct Core {
    pub types: List<TypeDef>,
    pub functions: List<Function>,
    pub methods: Methods,
    /// The function `main` of a program.
    pub entry: Option<u32>,
}

/// Where two Cores differ first: the item, and the child numbers down to the node in each.
#[derive(Drop)]
pub struct Difference {
    pub item: Place,
    pub old_path: List<u32>,
    pub new_path: List<u32>,
}
