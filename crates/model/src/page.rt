// What the clearing program is asked to read and to print.
use crate::rule::Rule;

// What it reads: a market sheet, or a comma-separated market.
#[derive(Clone, Copy)]
pub enum Layout {
    Sheet,
    Csv,
}

// What it prints of the market.
#[derive(Clone, Copy)]
pub enum Page {
    // The clearing by a rule.
    Clearing(Rule),
    // The efficient clearing.
    Efficient(Rule),
    // What decided for each guest, by a rule.
    Reasons(Rule),
    // The shortest sheet that states it.
    Sheet,
}

// What the program's arguments ask for.
#[derive(Clone, Copy)]
pub struct Asked {
    pub layout: Layout,
    pub page: Page,
}
