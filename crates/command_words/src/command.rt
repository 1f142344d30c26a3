use crate::serve_words::ServeWords;
use task_model::TaskText;

/// What the words of a command line ask for.
#[derive(Drop)]
pub enum Command {
    /// The script on the standard input is run on the program in this file, within this budget of units.
    Run { file: TaskText, budget: u32 },
    /// The program in this file is checked, and written.
    Check { file: TaskText },
    /// So many inputs are generated from this seed, and run.
    Soak { count: u32, seed: u64 },
    /// So many seats act at once, each so often.
    Drill { seats: u8, each: u32 },
    /// The program in this file is served with these numbers.
    Serve { file: TaskText, serving: ServeWords },
    /// As `Run`, with the lines of the script and the answers as JSON.
    Json { file: TaskText, budget: u32 },
    /// The bound of the program in this file is told.
    Bound { file: TaskText },
}
