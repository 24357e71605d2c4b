// How many things there are of a kind: what the words of a table can name.
ghost use Rattle.std.specs.Prelude.{◌≤◌};

// Few enough that the number of each is a word.
#[derive(Clone, Copy)]
pub struct Count {
    pub n: usize,
    pub ghost few: { n ≤ 65536 },
}

// What a step of the log can name: the model's variables and rows, and the facts before it.
#[derive(Clone, Copy)]
pub struct Known {
    pub variables: Count,
    pub rows: Count,
    pub facts: Count,
}
