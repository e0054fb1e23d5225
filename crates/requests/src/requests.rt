//! What is asked for. A clause sees a request as its fields, with the tools themselves in place of what shares them.
ghost use Rattle.std.specs.Prelude.{◌≡◌, IfOk};

use crate::NoMemory;
use completers::Tools;
use std::marker::Model;
use std::sync::Arc;
use text_doc::Doc;

/// What kind of answer is asked for.
#[derive(Debug, Drop, Clone, Copy)]
pub enum Kind {
    /// Completions of the typed word.
    Complete,
    /// What the history suggests.
    Suggest,
    /// Whether the text is valid.
    Check,
}

/// A request for an answer: its number, its kind, the document that the answer is for and what it is made with.
#[derive(Debug, Drop)]
pub struct Request {
    pub id: u64,
    pub kind: Kind,
    pub doc: Doc,
    pub tools: Arc<Tools>,
}

impl Model for Request {
    ghost use Rattle.requests.specs.Requests.{RequestFields};
    ghost use Rattle.std.specs.Coded.{codes};
    ghost use Rattle.completers.specs.contracts.tool_set.Tools as tool_set;

    ghost Value = { RequestFields };

    ghost coded = { Prim.hlevel (codes, tool_set.the_row.coded) };

    ghost view = { λ r. record { id = r.id; kind = r.kind; doc = r.doc; tools = r.tools.value } };
}

impl Request {
    /// Returns an equal request, the mark of its document included. The tools are shared.
    pub fn copy(&self) -> Result<Request, NoMemory>
        ensures { IfOk result (λ copy. copy ≡ self.now) }
    {
        let doc = self.doc.copy()?;
        let tools = Arc::try_clone(&self.tools)?;
        Ok(Request {
            id: self.id,
            kind: self.kind,
            doc,
            tools,
        })
    }
}
