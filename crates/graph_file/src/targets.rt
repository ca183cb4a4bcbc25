//! A graph as what a script is about.

ghost use Rattle.std.specs.Prelude.{◌≡◌};
ghost use Rattle.graph_file.specs.Targets.{is_weighable, takes_click, is_wire_at};

use graph::Graph;
use script::{Click, Pos, Targets};

/// The nodes that can be clicked, and the wires that are looked at.
pub struct GraphTargets<'a> {
    pub graph: &'a Graph,
}

impl Targets for GraphTargets<'_> {
    ghost takes = { λ targets. takes_click targets.graph.now.nodes };

    ghost wire = { λ targets. is_wire_at targets.graph.now.nodes };

    fn takes(&self, pos: Pos, click: Click) -> bool {
        takes(self.graph, pos, click)
    }

    fn wire(&self, pos: Pos) -> bool {
        wire(self.graph, pos)
    }
}

// A weight is 1 to 15.
pub fn is_weighable(click: Click) -> bool
    ensures { result ≡ is_weighable click }
{
    match click {
        Click::Weigh { weight } => 1 <= weight && weight <= 15,
        Click::Use | Click::Press | Click::Leave => true,
    }
}

fn takes(graph: &Graph, pos: Pos, click: Click) -> bool
    ensures { result ≡ takes_click graph.now.nodes pos click }
{
    is_weighable(click) && graph.takes_click(pos, click)
}

fn wire(graph: &Graph, pos: Pos) -> bool
    ensures { result ≡ is_wire_at graph.now.nodes pos }
{
    graph.has_wire(pos)
}
