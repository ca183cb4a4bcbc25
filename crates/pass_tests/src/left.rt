//! What a pass leaves of a graph made by hand.

ghost use Rattle.std.specs.Prelude.{◌<◌, length};

use graph::Link;
use hand_graph::{Row, sound_graph};
use pass_frame::Pass;
use rp_text::NoMemory;
use std::alloc::Global;
use std::process::Abort;

// The pass answers this on the graph of these nodes and links, and this is the text of what is left.
pub(crate) fn assert_left<P: Pass>(
    rt: &impl Abort,
    alloc: Global,
    pass: &mut P,
    nodes: &[Row],
    links: &[(u32, Link)],
    took: bool,
    want: &[u8],
) -> Result<(), NoMemory>
    requires { length nodes.now < 100 }
{
    let mut graph = sound_graph(alloc, nodes, links)?.expect(rt, "the graph is sound");
    let answer = pass.run(&mut graph)?;
    assert_eq!(rt; answer, took);
    let mut text = Vec::new(alloc);
    graph.push_text(&mut text)?;
    assert_eq!(rt; text.as_slice(), want);
    Ok(())
}
