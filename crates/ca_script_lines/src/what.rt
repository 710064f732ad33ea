use ca_script_lex::ca_model::Verb;

/// What a line of a consumer says: a verb that it calls, or the clock from which on it goes on.
#[derive(Drop)]
pub enum What {
    Verb(Verb),
    At(u64),
}

/// A line of a consumer, by its number in the script, counted from 1.
#[derive(Drop)]
pub struct Line {
    pub number: u32,
    pub what: What,
}
