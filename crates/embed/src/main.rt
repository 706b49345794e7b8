// The least that a program needs to search a task in memory of its own: open, start, advance and write.
#![tactic(auto)]

use estimator::blind::Blind;
use memory::node::Node;
use plain::fault::Fault;
use queue::entries::SearchEntry;
use search::answer::Progress;
use search::search::Search;
use std::io;
use std::io::Write;
use task::task::Task;

// Starts the search, advances it once, and answers what to print; a plan's text stands in the buffer.
fn run<'b>(search: &mut Search, buffer: &'b mut [u8]) -> Result<&'b [u8], Fault> {
    let mut estimator = Blind::new();
    let go = search.start(&mut [], &mut estimator)?;
    match search.advance(&mut estimator, 10, go).progress? {
        Progress::Found(find) => {
            let length = search.write(find, buffer)?;
            Ok(buffer.get(..length).unwrap_or(&[]))
        }
        Progress::NoPlan => Ok(b"no plan\n"),
        Progress::Full => Ok(b"full\n"),
        Progress::More(_) => Ok(b"more\n"),
    }
}

fn main(rt: HostRuntime) -> io::Result<()> {
    let mut nodes = [Node::default(); 4];
    let mut states = [0u8; 4];
    let mut index = [0u32; 8];
    let mut entries = [SearchEntry::default(); 4];
    let mut places = [0u32; 4];
    let mut search = Search::open(
        Task::built_in(),
        &mut nodes,
        &mut states,
        &mut index,
        &mut entries,
        &mut places,
    );
    let mut buffer = [0u8; 64];
    let text = match run(&mut search, &mut buffer) {
        Ok(text) => text,
        Err(fault) => fault.cause().name().as_bytes(),
    };
    rt.stdout().write_all(text)
}
