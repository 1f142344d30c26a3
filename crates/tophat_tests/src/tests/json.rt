//! Rows of `json`: in a row `«` and `»` stand for braces, and `{N PIECE}` for N times the piece.

use super::case::{Case, RUN, put_compared, told};
use json_face::{JsonStop, read_page, write_page};
use std::alloc::Global;
use task_model::OutOfMemory;
use testing_programs::repeated;

/// Lines that are no line of JSON, one a row.
const BAD: &str = " 
null
[]
«»
«\"seat\":1»
«\"show\":true»
«\"seat\":1,\"show\":false»
«\"seat\":1,\"show\":null»
«\"seat\":1,\"show\":true,\"path\":\".\"»
«\"seat\":0,\"show\":true»
«\"seat\":65,\"show\":true»
«\"seat\":1.0,\"show\":true»
«\"seat\":\"1\",\"show\":true»
«\"Seat\":1,\"show\":true»
\u{feff}«\"seat\":1,\"show\":true»
# a comment
1 show
«\"seat\":1,\"show\":true»«\"seat\":1,\"show\":true»
«\"seat\":1,\"path\":\".\",\"act\":\"set\",\"value\":1.0»
«\"seat\":1,\"path\":\".\",\"act\":\"set\",\"value\":1.5»
«\"seat\":1,\"path\":\".\",\"act\":\"set\",\"value\":1e0»
«\"seat\":1,\"path\":\".\",\"act\":\"set\",\"value\":-0»
«\"seat\":1,\"path\":\".\",\"act\":\"set\",\"value\":01»
«\"seat\":1,\"path\":\".\",\"act\":\"set\",\"value\":9223372036854775808»
«\"seat\":1,\"path\":\".\",\"act\":\"set\",\"value\":-9223372036854775809»
«\"seat\":1,\"path\":\".\",\"act\":\"set\",\"value\":«\"first\":1»»
«\"seat\":1,\"path\":\".\",\"act\":\"set\",\"value\":«\"first\":1,\"second\":2,\"third\":3»»
«\"seat\":1,\"path\":\".\",\"act\":\"set\",\"value\":\"\\ud800\"»
«\"seat\":1,\"path\":\".\",\"act\":\"set\",\"value\":{65 [}{65 ]}»
«\"seat\":1,\"path\":\".\",\"act\":\"set\",\"value\":[{1024 0,}0]»
«\"seat\":1,\"path\":\".\",\"act\":\"set\",\"value\":\"{65537 a}\"»
«\"seat\":1,\"path\":\".\",\"act\":\"set\"»
«\"seat\":1,\"path\":\".\",\"act\":\"next\"»
«\"seat\":1,\"path\":\".\",\"act\":\"next\",\"label\":\"go\"»
«\"seat\":1,\"path\":\".\",\"act\":\"left\",\"label\":\"next\"»
«\"seat\":1,\"path\":\".\",\"act\":\"left\",\"value\":1»
«\"seat\":1,\"path\":\"F\",\"act\":\"left\"»
«\"seat\":1,\"path\":\".f\",\"act\":\"left\"»
«\"seat\":1,\"path\":\".\",\"act\":\"stop\"»
«\"seat\":1,\"path\":\".\",\"act\":\"set\",\"value\":\"{1048576 a}\"»
«\"seat\":1,\"show\":true»{1048555  }";

/// A program, a script and what is told of it, behind each other with a line of `--` between.
const GOOD: &str = "task main() : int = enter int >>? x . edit x
--
«\"seat\":1,\"path\":\".\",\"act\":\"left\"»
«\"seat\":1,\"path\":\".\",\"act\":\"set\",\"value\":4»
«\"seat\":1,\"show\":true»

«\"act\":\"next\",\"label\":\"next\",\"path\":\".\",\"seat\":1»
 « \"show\" : true , \"seat\" : 9, \"seat\" : 2 »\t
--
= 0
«\"refused\":\"not offered\",\"version\":0»
«\"taken\":1»
«\"seat\":1,\"version\":1,\"widgets\":[«\"choices\":[«\"label\":\"next\",\"sign\":\"yes\"»],\"kind\":\"step\",\"path\":\".\"»,«\"kind\":\"edit\",\"path\":\".\",\"type\":\"int\",\"value\":4»]»
«\"taken\":2»
«\"seat\":2,\"version\":2,\"widgets\":[«\"kind\":\"edit\",\"path\":\".\",\"type\":\"int\",\"value\":4»]»
";

// The text with its repeats and braces.
fn braced(alloc: Global, text: &str) -> Result<String, OutOfMemory> {
    let mut whole = String::new(alloc);
    for c in repeated(alloc, text)?.as_str().chars() {
        match c {
            '«' => whole.push('{')?,
            '»' => whole.push('}')?,
            _ => whole.push(c)?,
        }
    }
    Ok(whole)
}

fn put_case(
    found: &mut String,
    alloc: Global,
    program: &str,
    script: &str,
    wanted: &str,
) -> Result<(), OutOfMemory> {
    let script = braced(alloc, script)?;
    let case = Case {
        words: "json p.th",
        program: program.as_bytes(),
        script: script.as_str().as_bytes(),
        ..RUN
    };
    let told = told(alloc, &case, 4_096)?;
    let wanted = braced(alloc, wanted)?;
    put_compared(found, program, told.as_str(), wanted.as_str())
}

fn put_bad(found: &mut String, alloc: Global) -> Result<(), OutOfMemory> {
    for line in BAD.split('\n') {
        let wanted = "= 3\ntophat: line 1 column 1\n";
        put_case(found, alloc, "task main() : int = edit 1", line, wanted)?;
    }
    Ok(())
}

/// Puts what differs from the rows of `json`.
pub(super) fn put_json(found: &mut String, alloc: Global) -> Result<(), OutOfMemory> {
    let mut parts = GOOD.split("\n--\n");
    let program = parts.next().unwrap_or("");
    let script = parts.next().unwrap_or("");
    put_case(found, alloc, program, script, parts.next().unwrap_or(""))?;
    put_bad(found, alloc)
}

/// Pages, one a row, of each kind of widget.
const PAGES: &str =
    "«\"seat\":1,\"version\":1,\"widgets\":[«\"choices\":[«\"label\":\"next\",\"sign\":\"yes\"»],\"kind\":\"step\",\"path\":\".\"»,«\"kind\":\"edit\",\"path\":\".\",\"type\":\"int\",\"value\":4»]»
«\"seat\":64,\"version\":18446744073709551615,\"widgets\":[]»
«\"seat\":2,\"version\":0,\"widgets\":[«\"kind\":\"enter\",\"path\":\".FS\",\"type\":\"(int, [text])\"»,«\"kind\":\"share\",\"path\":\".S\",\"type\":\"bool\",\"value\":true»,«\"kind\":\"then\",\"path\":\".\"»,«\"kind\":\"fail\",\"path\":\".\"»,«\"kind\":\"and\",\"path\":\".\"»,«\"kind\":\"or\",\"path\":\".\"»,«\"kind\":\"pick\",\"left\":\"over\",\"path\":\".\",\"right\":\"no\"»]»
«\"seat\":1,\"version\":7,\"widgets\":[«\"kind\":\"edit\",\"path\":\".\",\"type\":\"[(unit, text)]\",\"value\":[«\"first\":null,\"second\":\"a\\\"\\\\\\n\\u0001é\"»,«\"first\":null,\"second\":\"\"»]»,«\"kind\":\"edit\",\"path\":\".\",\"type\":\"int\",\"value\":-9223372036854775808»]»";

/// Texts that are no page, one a row.
const NO_PAGES: &str = "
«»
null
«\"seat\":0,\"version\":1,\"widgets\":[]»
«\"seat\":1,\"version\":-1,\"widgets\":[]»
«\"seat\":1,\"version\":18446744073709551616,\"widgets\":[]»
«\"seat\":1,\"version\":1,\"widgets\":«»»
«\"seat\":1,\"version\":1»
«\"seat\":1,\"version\":1,\"widgets\":[],\"more\":1»
«\"seat\":1,\"version\":1,\"widgets\":[«\"kind\":\"go\",\"path\":\".\"»]»
«\"seat\":1,\"version\":1,\"widgets\":[«\"kind\":\"fail\",\"path\":\"\"»]»
«\"seat\":1,\"version\":1,\"widgets\":[«\"kind\":\"fail\",\"path\":\".\",\"type\":\"int\"»]»
«\"seat\":1,\"version\":1,\"widgets\":[«\"kind\":\"enter\",\"path\":\".\",\"type\":\"( int, int)\"»]»
«\"seat\":1,\"version\":1,\"widgets\":[«\"kind\":\"edit\",\"path\":\".\",\"type\":\"int\",\"value\":1.0»]»
«\"seat\":1,\"version\":1,\"widgets\":[«\"kind\":\"pick\",\"left\":\"y\",\"path\":\".\",\"right\":\"no\"»]»
«\"seat\":1,\"version\":1,\"widgets\":[«\"choices\":[],\"kind\":\"step\",\"path\":\".\"»]»
«\"seat\":1,\"version\":1,\"widgets\":[«\"choices\":[«\"label\":\"go\",\"sign\":\"yes\"»],\"kind\":\"step\",\"path\":\".\"»]»";

// What a page is written as once it was read, or why it is none.
fn read_back(alloc: Global, text: &str) -> Result<String, OutOfMemory> {
    match read_page(alloc, text.as_bytes()) {
        Ok(page) => Ok(String::from_str(alloc, write_page(alloc, &page)?.as_str())?),
        Err(JsonStop::Bad) => Ok(String::from_str(alloc, "bad")?),
        Err(JsonStop::Memory) => Err(OutOfMemory),
    }
}

/// Puts what differs where pages are read and written again.
pub(super) fn put_pages(found: &mut String, alloc: Global) -> Result<(), OutOfMemory> {
    for row in PAGES.split('\n') {
        let text = braced(alloc, row)?;
        let told = read_back(alloc, text.as_str())?;
        put_compared(found, row, told.as_str(), text.as_str())?;
    }
    for row in NO_PAGES.split('\n') {
        let text = braced(alloc, row)?;
        put_compared(found, row, read_back(alloc, text.as_str())?.as_str(), "bad")?;
    }
    Ok(())
}
