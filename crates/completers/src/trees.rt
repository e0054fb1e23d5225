//! Where completions come from. A clause sees a completer as a tree.
ghost use Rattle.std.specs.Prelude.{◌≡◌, [], ◌∷◌, IfOk};
ghost use Rattle.completers.specs.Trees.{words, nested, merged, distinct, trees_of};

use crate::NestedOptions;
use std::alloc::Global;
use std::marker::Model;
use text_doc::{Item, Lines, NoMemory};

/// One node of a completer.
#[derive(Debug, Drop)]
pub enum Node {
    /// These words, of which those fit that start with what is typed, or contain it where the middle counts too.
    Words { words: Lines, middle: bool },
    /// These options.
    Nested(NestedOptions),
    /// The two completers right before.
    Merged,
    /// The completer right before.
    Distinct,
}

impl Item for Node {
    fn copied(&self) -> Result<Node, NoMemory> {
        match self {
            Node::Words { words, middle } => {
                let words = words.copy()?;
                Ok(Node::Words {
                    words,
                    middle: *middle,
                })
            }
            Node::Nested(options) => {
                let options = options.copy()?;
                Ok(Node::Nested(options))
            }
            Node::Merged => Ok(Node::Merged),
            Node::Distinct => Ok(Node::Distinct),
        }
    }
}

/// Where completions come from: words, options with inner words, two completers one after the other, or the completions
/// of another one that give a text of their own.
///
/// It leads back to no completer, so that it can be handed to another thread: its nodes are one list, in which each
/// stands behind those that it is of.
#[derive(Debug, Drop)]
pub struct Completer {
    nodes: Vec<Node>,
}

impl Model for Completer {
    ghost use Rattle.std.specs.Prelude.{[], IsTrue};
    ghost use Rattle.completers.specs.Trees.{Tree, trees_of, is_one};
    ghost use Rattle.completers.specs.TreeCodes.{tree_from, tree_code};
    ghost use Rattle.completers.specs.contracts.trees.Node as node;

    ghost Value = { Tree };

    ghost coded = { tree_code node.the_row.coded };

    ghost view = { λ c. tree_from c.nodes.items };

    ghost invariant = { λ c. IsTrue (is_one (trees_of c.nodes.items [])) };
}

impl Completer {
    /// Returns a completer of these words, in their order. With `middle` a word fits where it contains what is typed, and
    /// without it where it starts with that.
    pub fn words(alloc: Global, listed: Lines, middle: bool) -> Result<Completer, NoMemory>
        ensures { IfOk result (λ completer. completer ≡ words listed middle) }
    {
        let mut nodes = Vec::new(alloc);
        nodes.push(Node::Words {
            words: listed,
            middle,
        })?;
        Ok(Completer { nodes })
    }

    /// Returns a completer of the names of these options, and behind a name of the inner words of the first option of
    /// that name.
    pub fn nested(alloc: Global, options: NestedOptions) -> Result<Completer, NoMemory>
        ensures { IfOk result (λ completer. completer ≡ nested options) }
    {
        let mut nodes = Vec::new(alloc);
        nodes.push(Node::Nested(options))?;
        Ok(Completer { nodes })
    }

    /// Returns a completer of the completions of `first` and then those of `second`. Both are dropped where there is no
    /// memory.
    pub fn merged(first: Completer, second: Completer) -> Result<Completer, NoMemory>
        ensures { IfOk result (λ completer. completer ≡ merged first second) }
    {
        let Completer { mut nodes } = first;
        let Completer { nodes: mut more } = second;
        nodes.append(&mut more)?;
        nodes.push(Node::Merged)?;
        Ok(Completer { nodes })
    }

    /// Returns a completer of those completions of `inner` that give a text of their own: of several that give the same
    /// text the first, and none that gives the present text. `inner` is dropped where there is no memory.
    pub fn distinct(inner: Completer) -> Result<Completer, NoMemory>
        ensures { IfOk result (λ completer. completer ≡ distinct inner) }
    {
        let Completer { mut nodes } = inner;
        nodes.push(Node::Distinct)?;
        Ok(Completer { nodes })
    }

    /// Returns an equal completer.
    pub fn copy(&self) -> Result<Completer, NoMemory>
        ensures { IfOk result (λ copy. copy ≡ self.now) }
    {
        let nodes = Node::copied_all(*self.nodes.allocator(), self.nodes.as_slice())?;
        Ok(Completer { nodes })
    }

    /// Returns the nodes, each behind those that it is of.
    pub(crate) fn nodes(&self) -> &[Node]
        ensures { trees_of result.now [] ≡ self.now ∷ [] }
    {
        self.nodes.as_slice()
    }
}
