//! Files that are read and written back, each refusal at its first place, and what JSON is.

use graph::Graph;
use graph_file::{from_bytes, from_value, to_text, to_value};
use report::{GraphKind, GraphRefusal};
use std::alloc::Global;
use std::process::Abort;
use std::test::Fail;

const LEVER_AND_LAMP: &str =
    "{\"links\":[[0,1,0,0]],\"nodes\":[{\"also\":[],\"at\":[0,0,0],\"due\":0,\"first\":false,\"kind\":\"lever\",\"priority\":0,\"state\":0},{\"also\":[],\"at\":[2,0,0],\"due\":0,\"first\":false,\"kind\":\"lamp\",\"priority\":0,\"state\":0}],\"redpile\":1}\n";

const EACH_DETAIL: &str =
    "{\"links\":[[0,2,0,1],[3,2,0,0],[1,2,1,15]],\"nodes\":[{\"also\":[[1,2,3],[65535,0,0]],\"at\":[0,1,0],\"delay\":15,\"due\":15,\"first\":false,\"kind\":\"button\",\"priority\":3,\"state\":1},{\"also\":[],\"at\":[2,1,1],\"delay\":4,\"due\":0,\"first\":true,\"kind\":\"repeater\",\"priority\":0,\"state\":0},{\"also\":[],\"at\":[1,1,2],\"direct\":3,\"due\":0,\"far\":15,\"first\":true,\"kind\":\"comparator\",\"priority\":0,\"state\":12,\"subtract\":true},{\"also\":[],\"at\":[2,1,2],\"due\":0,\"first\":false,\"kind\":\"constant\",\"priority\":0,\"state\":15}],\"redpile\":1}\n";

const BACK_AND_LOCK: &str =
    "{\"links\":[[0,1,0,1],[0,2,0,1],[2,3,0,0],[1,3,1,0],[3,4,0,0]],\"nodes\":[{\"also\":[],\"at\":[0,1,0],\"due\":0,\"first\":false,\"kind\":\"lever\",\"priority\":0,\"state\":0},{\"also\":[],\"at\":[2,1,1],\"delay\":1,\"due\":0,\"first\":true,\"kind\":\"repeater\",\"priority\":0,\"state\":0},{\"also\":[],\"at\":[1,1,2],\"delay\":1,\"due\":0,\"first\":true,\"kind\":\"repeater\",\"priority\":0,\"state\":0},{\"also\":[],\"at\":[2,1,2],\"delay\":1,\"due\":0,\"first\":false,\"kind\":\"repeater\",\"priority\":0,\"state\":0},{\"also\":[],\"at\":[3,1,2],\"due\":0,\"first\":false,\"kind\":\"lamp\",\"priority\":0,\"state\":0}],\"redpile\":1}\n";

// The text of a file that is read and written back.
fn again(alloc: Global, text: &str) -> Result<Option<Vec<u8>>, Fail> {
    match from_bytes(alloc, text.as_bytes()) {
        Ok(graph) => Ok(Some(to_text(alloc, &graph)?)),
        Err(_) => Ok(None),
    }
}

// The same by way of a value.
fn again_by_value(alloc: Global, text: &str) -> Result<Option<Vec<u8>>, Fail> {
    let Ok(graph) = from_bytes(alloc, text.as_bytes()) else {
        return Ok(None);
    };
    let value = to_value(alloc, &graph)?;
    match from_value(alloc, &value) {
        Ok(read) => Ok(Some(to_text(alloc, &read)?)),
        Err(_) => Ok(None),
    }
}

fn refusal_of(alloc: Global, bytes: &[u8]) -> Option<GraphRefusal> {
    match from_bytes(alloc, bytes) {
        Ok(_) => None,
        Err(refusal) => Some(refusal),
    }
}

fn refuses(rt: &impl Abort, alloc: Global, text: &str, wanted: GraphRefusal) {
    assert_eq!(rt; refusal_of(alloc, text.as_bytes()), Some(wanted), "{text}");
}

fn takes(rt: &impl Abort, alloc: Global, text: &str) {
    assert_eq!(rt; refusal_of(alloc, text.as_bytes()), None, "{text}");
}

fn node(index: u32, kind: GraphKind) -> GraphRefusal {
    GraphRefusal::Node { index, kind }
}

fn link(index: u32, kind: GraphKind) -> GraphRefusal {
    GraphRefusal::Link { index, kind }
}

#[test]
fn read_and_written_back(rt: HostRuntime) -> Result<(), Fail> {
    let alloc = rt.alloc();
    let lamp = again(alloc, LEVER_AND_LAMP)?.ok_or("refused")?;
    assert_eq!(rt; lamp.as_slice(), LEVER_AND_LAMP.as_bytes());
    let detail = again(alloc, EACH_DETAIL)?.ok_or("refused")?;
    assert_eq!(rt; detail.as_slice(), EACH_DETAIL.as_bytes());
    let lock = again(alloc, BACK_AND_LOCK)?.ok_or("refused")?;
    assert_eq!(rt; lock.as_slice(), BACK_AND_LOCK.as_bytes());
    let by_value = again_by_value(alloc, LEVER_AND_LAMP)?.ok_or("refused")?;
    assert_eq!(rt; by_value.as_slice(), LEVER_AND_LAMP.as_bytes());
    Ok(())
}

// The file of a lever and a lamp with another kind and state of the lever, place of the lamp and
// link.
fn refuses_changed(
    rt: &impl Abort,
    alloc: Global,
    lever: &str,
    at: &str,
    entry: &str,
    wanted: GraphRefusal,
) -> Result<(), Fail> {
    let text = format!(in alloc;
        "{{\"links\":[{entry}],\"nodes\":[{{\"also\":[],\"at\":[0,0,0],\"due\":0,\"first\":false,{lever}}},{{\"also\":[],\"at\":{at},\"due\":0,\"first\":false,\"kind\":\"lamp\",\"priority\":0,\"state\":0}}],\"redpile\":1}}"
    )?;
    refuses(rt, alloc, text.as_str(), wanted);
    Ok(())
}

#[test]
fn bad_graph_files(rt: HostRuntime) -> Result<(), Fail> {
    let alloc = rt.alloc();
    let lever = "\"kind\":\"lever\",\"priority\":0,\"state\":0";
    let on_2 = "\"kind\":\"lever\",\"priority\":0,\"state\":2";
    let piston = "\"kind\":\"piston\",\"priority\":0,\"state\":0";
    let lamp = "[2,0,0]";
    let link_on = "[0,1,0,0]";
    refuses_changed(
        &rt,
        alloc,
        lever,
        lamp,
        "[0,2,0,0]",
        link(0, GraphKind::End),
    )?;
    refuses_changed(
        &rt,
        alloc,
        lever,
        lamp,
        "[0,1,0,16]",
        link(0, GraphKind::Range),
    )?;
    refuses_changed(
        &rt,
        alloc,
        lever,
        "[0,0,0]",
        link_on,
        node(1, GraphKind::Place),
    )?;
    refuses_changed(&rt, alloc, on_2, lamp, link_on, node(0, GraphKind::Range))?;
    refuses_changed(&rt, alloc, piston, lamp, link_on, node(0, GraphKind::Field))
}

#[test]
fn bad_wholes(rt: HostRuntime) {
    let alloc = rt.alloc();
    refuses(&rt, alloc, "[]", GraphRefusal::Whole);
    refuses(&rt, alloc, "{", GraphRefusal::Json);
    refuses(
        &rt,
        alloc,
        "{\"links\":[],\"nodes\":[],\"redpile\":2}",
        GraphRefusal::Whole,
    );
    refuses(
        &rt,
        alloc,
        "{\"links\":[],\"nodes\":{},\"redpile\":1}",
        GraphRefusal::Whole,
    );
    refuses(
        &rt,
        alloc,
        "{\"nodes\":[],\"redpile\":1}",
        GraphRefusal::Whole,
    );
    takes(&rt, alloc, "{\"links\":[],\"nodes\":[],\"redpile\":1}");
}

// A file of a lever and one node more.
fn refuses_node(
    rt: &impl Abort,
    alloc: Global,
    members: &str,
    kind: GraphKind,
) -> Result<(), Fail> {
    let text = format!(in alloc;
        "{{\"links\":[[9]],\"nodes\":[{{\"kind\":\"lever\",\"at\":[0,0,0],\"state\":0}},{{{members}}}],\"redpile\":1}}"
    )?;
    refuses(rt, alloc, text.as_str(), node(1, kind));
    Ok(())
}

#[test]
fn bad_fields(rt: HostRuntime) -> Result<(), Fail> {
    let alloc = rt.alloc();
    let field = GraphKind::Field;
    refuses_node(
        &rt,
        alloc,
        "\"kind\":\"piston\",\"at\":[1,0,0],\"state\":0",
        field,
    )?;
    refuses_node(
        &rt,
        alloc,
        "\"kind\":\"lamp\",\"at\":[1,0],\"state\":9",
        field,
    )?;
    refuses_node(&rt, alloc, "\"kind\":\"lamp\",\"at\":[1,0,0]", field)?;
    refuses_node(
        &rt,
        alloc,
        "\"kind\":\"button\",\"at\":[1,0,0],\"state\":0",
        field,
    )?;
    refuses_node(
        &rt,
        alloc,
        "\"kind\":\"comparator\",\"at\":[1,0,0],\"state\":0",
        field,
    )?;
    refuses_node(
        &rt,
        alloc,
        "\"kind\":\"comparator\",\"at\":[1,0,0],\"state\":0,\"subtract\":true,\"far\":-1",
        field,
    )?;
    refuses_node(
        &rt,
        alloc,
        "\"kind\":\"lamp\",\"at\":[1,0,0],\"state\":0,\"due\":true",
        field,
    )?;
    refuses_node(
        &rt,
        alloc,
        "\"kind\":\"lamp\",\"at\":[1,0,0],\"state\":0,\"first\":0",
        field,
    )?;
    refuses_node(
        &rt,
        alloc,
        "\"kind\":\"lamp\",\"at\":[1,0,0],\"state\":0,\"also\":[0]",
        field,
    )
}

#[test]
fn bad_ranges(rt: HostRuntime) -> Result<(), Fail> {
    let alloc = rt.alloc();
    let range = GraphKind::Range;
    refuses_node(
        &rt,
        alloc,
        "\"kind\":\"lamp\",\"at\":[65536,0,0],\"state\":0",
        range,
    )?;
    refuses_node(
        &rt,
        alloc,
        "\"kind\":\"lamp\",\"at\":[0,0,0],\"state\":2",
        range,
    )?;
    refuses_node(
        &rt,
        alloc,
        "\"kind\":\"wire\",\"at\":[1,0,0],\"state\":1",
        range,
    )?;
    refuses_node(
        &rt,
        alloc,
        "\"kind\":\"repeater\",\"at\":[1,0,0],\"state\":0,\"delay\":5",
        range,
    )?;
    refuses_node(
        &rt,
        alloc,
        "\"kind\":\"button\",\"at\":[1,0,0],\"state\":0,\"delay\":11",
        range,
    )?;
    refuses_node(
        &rt,
        alloc,
        "\"kind\":\"trapdoor\",\"at\":[1,0,0],\"state\":0,\"due\":1",
        range,
    )?;
    refuses_node(
        &rt,
        alloc,
        "\"kind\":\"lamp\",\"at\":[1,0,0],\"state\":0,\"priority\":1",
        range,
    )?;
    refuses_node(
        &rt,
        alloc,
        "\"kind\":\"lamp\",\"at\":[1,0,0],\"state\":0,\"also\":[[0,0,70000]]",
        range,
    )?;
    refuses_node(
        &rt,
        alloc,
        "\"kind\":\"lamp\",\"at\":[0,0,0],\"state\":0",
        GraphKind::Place,
    )?;
    refuses_node(
        &rt,
        alloc,
        "\"kind\":\"lamp\",\"at\":[1,0,0],\"state\":0,\"also\":[[1,0,0]]",
        GraphKind::Place,
    )
}

// A file of a lever, a lamp and this link.
fn refuses_link(rt: &impl Abort, alloc: Global, entry: &str, kind: GraphKind) -> Result<(), Fail> {
    let text = format!(in alloc;
        "{{\"links\":[[0,1,0,0],{entry}],\"nodes\":[{{\"kind\":\"lever\",\"at\":[0,0,0],\"state\":0}},{{\"kind\":\"lamp\",\"at\":[1,0,0],\"state\":0}}],\"redpile\":1}}"
    )?;
    refuses(rt, alloc, text.as_str(), link(1, kind));
    Ok(())
}

#[test]
fn bad_links(rt: HostRuntime) -> Result<(), Fail> {
    let alloc = rt.alloc();
    refuses_link(&rt, alloc, "[0,1,0]", GraphKind::Field)?;
    refuses_link(&rt, alloc, "[0,1,false,9]", GraphKind::Field)?;
    refuses_link(&rt, alloc, "[0,2,9,0]", GraphKind::End)?;
    refuses_link(&rt, alloc, "[2,0,0,0]", GraphKind::End)?;
    refuses_link(&rt, alloc, "[0,1,2,0]", GraphKind::Range)?;
    refuses_link(&rt, alloc, "[0,1,0,16],[]", GraphKind::Range)
}

// A member that is passed over says what the reader takes as JSON.
fn with_member(alloc: Global, member: &str) -> Result<Option<GraphRefusal>, Fail> {
    let text = format!(in alloc;
        " {{\"links\":[],\"nodes\":[],\"redpile\":1,\"more\":{member}}} "
    )?;
    Ok(refusal_of(alloc, text.as_bytes()))
}

fn nested(alloc: Global, depth: usize) -> Result<String, Fail> {
    let mut text = String::new(alloc);
    for _ in 0..depth {
        text.push_str("[")?;
    }
    for _ in 0..depth {
        text.push_str("]")?;
    }
    Ok(text)
}

#[test]
fn what_json_is(rt: HostRuntime) -> Result<(), Fail> {
    let alloc = rt.alloc();
    assert_eq!(rt; with_member(alloc, nested(alloc, 126)?.as_str())?, None);
    assert_eq!(rt;
        with_member(alloc, nested(alloc, 127)?.as_str())?,
        Some(GraphRefusal::Json)
    );
    assert_eq!(rt;
        with_member(alloc, "\"\\ud800\"")?,
        Some(GraphRefusal::Json)
    );
    assert_eq!(rt; with_member(alloc, "\"\\ud83d\\ude00\"")?, None);
    assert_eq!(rt; with_member(alloc, "1e400")?, Some(GraphRefusal::Json));
    assert_eq!(rt; with_member(alloc, "-0")?, None);
    assert_eq!(rt; with_member(alloc, "01")?, Some(GraphRefusal::Json));
    assert_eq!(rt;
        with_member(alloc, "1,\"redpile\":2")?,
        Some(GraphRefusal::Whole)
    );
    assert_eq!(rt; refusal_of(alloc, b"\xff"), Some(GraphRefusal::Json));
    Ok(())
}

#[test]
fn what_a_number_is(rt: HostRuntime) {
    let alloc = rt.alloc();
    refuses(
        &rt,
        alloc,
        "{\"links\":[],\"nodes\":[],\"redpile\":1.0}",
        GraphRefusal::Whole,
    );
    refuses(
        &rt,
        alloc,
        "{\"links\":[],\"nodes\":[],\"redpile\":1e0}",
        GraphRefusal::Whole,
    );
    refuses(
        &rt,
        alloc,
        "{\"links\":[],\"nodes\":[],\"redpile\":-1}",
        GraphRefusal::Whole,
    );
    refuses(
        &rt,
        alloc,
        "{\"links\":[],\"nodes\":[],\"redpile\":18446744073709551616}",
        GraphRefusal::Whole,
    );
}
