//! The state of a boolean query that is read token by token.
ghost use Rattle.std.specs.Prelude.{◌≡◌, Ok, OnOk};
ghost use Rattle.contract_words.specs.Answers.{Gives};
ghost use Rattle.mail_query.specs.Query.{query_of};
ghost use Rattle.or_memory.specs.Refusals.{refusal};
ghost use Rattle.mail_query.specs.Mail.{boolean_lexicon};
ghost use Rattle.mail_query.specs.Inside.Shown.{state_of_reader, shown_level, shown_waiting, shown_stack, shown_token};
ghost use Rattle.mail_query.specs.BooleanReading.{start, state_after_operand, deeper, state_after_close, query_at_end, step, term_step, cut_term_step, is_negated, has_open};

use crate::boolean::field::{Field, Fields, field_of};
use crate::boolean::term::read_parts;
use crate::boolean::token::Token;
use crate::fault::QueryFaultKind;
use crate::node::{Node, all_of, either_of, negated};
use crate::pieces::cut;
use or_memory::OrMemory;
use std::alloc::{AllocError, Global};
use std::mem;

/// At most this many `(` and `not` may be open at once.
const MOST_WAITING: usize = 30;

/// A group of alternatives so far, the whole query or a group in parentheses. `eaches` has the alternatives that an
/// `or` ended, `members` the operands of the last one. `seen` has the prefixes of the plain terms since the last
/// operator, because no two of these may have the same.
#[derive(Drop)]
pub(crate) struct Level {
    eaches: Vec<Node>,
    members: Vec<Node>,
    seen: Fields,
}

impl Level {
    ghost use Rattle.mail_query.specs.BooleanReading.{empty_level, each_ended, level_query};

    fn empty(alloc: Global) -> Level
        ensures { shown_level result ≡ empty_level }
    {
        Level {
            eaches: Vec::new(alloc),
            members: Vec::new(alloc),
            seen: Fields::NONE,
        }
    }

    /// Ends an alternative, as an `or` does.
    fn end_each(&mut self, alloc: Global) -> Result<(), AllocError>
        ensures { OnOk result (shown_level self.new ≡ each_ended (shown_level self.old)) }
    {
        let members = mem::replace(&mut self.members, Vec::new(alloc));
        self.eaches.push(all_of(members))?;
        self.seen = Fields::NONE;
        Ok(())
    }

    fn into_node(mut self, alloc: Global) -> Result<Node, OrMemory<QueryFaultKind>>
        ensures { Gives query_of refusal result (Ok (level_query (shown_level self))) }
    {
        self.end_each(alloc)?;
        Ok(either_of(self.eaches))
    }
}

/// What is open: a `not` without its operand yet, or a `(`, with the group around it.
#[derive(Drop)]
pub(crate) enum Waiting {
    ForNot,
    ForClose(Level),
}

/// What was read: all that is open, the innermost last, and the innermost group.
#[derive(Drop)]
pub(crate) struct Reader {
    waiting: Vec<Waiting>,
    level: Level,
    /// Whether a term, a `not` or a `(` must follow.
    wanted: bool,
}

impl Reader {
    pub(crate) fn new(alloc: Global) -> Reader
        ensures { state_of_reader result ≡ start }
    {
        Reader {
            waiting: Vec::new(alloc),
            level: Level::empty(alloc),
            wanted: true,
        }
    }

    /// Reads one more token.
    pub(crate) fn read(
        &mut self,
        alloc: Global,
        token: Token<'_>,
    ) -> Result<(), OrMemory<QueryFaultKind>>
        ensures { Gives (λ _. state_of_reader self.new) refusal result
            (step boolean_lexicon (state_of_reader self.old) (shown_token token.entry)) }
    {
        match token {
            Token::Term(term) => self.read_term(alloc, term),
            Token::Not => self.wait(Waiting::ForNot),
            Token::Open => {
                let outer = mem::replace(&mut self.level, Level::empty(alloc));
                self.wait(Waiting::ForClose(outer))
            }
            Token::Close => self.close(alloc),
            Token::And | Token::Or if self.wanted => Err(OrMemory::Refused(
                QueryFaultKind::MissingTerm,
            )),
            Token::And => {
                self.level.seen = Fields::NONE;
                self.wanted = true;
                Ok(())
            }
            Token::Or => {
                self.level.end_each(alloc)?;
                self.wanted = true;
                Ok(())
            }
        }
    }

    /// Ends the query and returns its tree. Fails if a term is missing or a `(` is still open.
    pub(crate) fn end(&mut self, alloc: Global) -> Result<Node, OrMemory<QueryFaultKind>>
        ensures { Gives query_of refusal result (query_at_end (state_of_reader self.old)) }
    {
        if self.wanted {
            return Err(OrMemory::Refused(QueryFaultKind::MissingTerm));
        }
        if has_open(self.waiting.as_slice()) {
            return Err(OrMemory::Refused(QueryFaultKind::BadParenthesis));
        }
        let level = mem::replace(&mut self.level, Level::empty(alloc));
        level.into_node(alloc)
    }

    fn read_term(&mut self, alloc: Global, term: &str) -> Result<(), OrMemory<QueryFaultKind>>
        ensures { Gives (λ _. state_of_reader self.new) refusal result
            (term_step boolean_lexicon (state_of_reader self.old) term.now) }
    {
        if term.as_bytes().contains(&b'"') {
            return Err(OrMemory::Refused(QueryFaultKind::Phrase));
        }
        match cut(term, ':') {
            None => self.read_cut_term(alloc, None, term),
            Some((name, rest)) => {
                let field = field_of(name);
                if field.is_none() {
                    return Err(OrMemory::Refused(QueryFaultKind::BadPrefix));
                }
                self.read_cut_term(alloc, field, rest)
            }
        }
    }

    fn read_cut_term(
        &mut self,
        alloc: Global,
        prefix: Option<Field>,
        rest: &str,
    ) -> Result<(), OrMemory<QueryFaultKind>>
        ensures { Gives (λ _. state_of_reader self.new) refusal result
            (cut_term_step boolean_lexicon (state_of_reader self.old) prefix rest.now) }
    {
        let negated = is_negated(self.waiting.as_slice());
        if !negated && self.level.seen.has(prefix) {
            return Err(OrMemory::Refused(QueryFaultKind::NeedsOperator));
        }
        let node = read_parts(alloc, prefix, rest)?;
        if !negated {
            self.level.seen = self.level.seen.with(prefix);
        }
        self.place(alloc, node)
    }

    /// Opens one more `(` or `not`. Fails if 30 are open.
    fn wait(&mut self, what: Waiting) -> Result<(), OrMemory<QueryFaultKind>>
        ensures { Gives (λ _. state_of_reader self.new) refusal result
            (deeper (shown_stack self.old.waiting.items) (shown_waiting what)
            (shown_level self.old.level)) }
    {
        if self.waiting.len() >= MOST_WAITING {
            return Err(OrMemory::Refused(QueryFaultKind::TooDeep));
        }
        self.waiting.push(what)?;
        self.wanted = true;
        Ok(())
    }

    fn close(&mut self, alloc: Global) -> Result<(), OrMemory<QueryFaultKind>>
        ensures { Gives (λ _. state_of_reader self.new) refusal result (state_after_close
            (state_of_reader self.old)) }
    {
        if self.wanted {
            return if has_open(self.waiting.as_slice()) {
                Err(OrMemory::Refused(QueryFaultKind::MissingTerm))
            } else {
                Err(OrMemory::Refused(QueryFaultKind::BadParenthesis))
            };
        }
        match self.waiting.pop() {
            Some(Waiting::ForClose(outer)) => {
                let inner = mem::replace(&mut self.level, outer);
                let node = inner.into_node(alloc)?;
                self.place(alloc, node)
            }
            Some(Waiting::ForNot) => Err(OrMemory::Refused(QueryFaultKind::BadParenthesis)),
            None => Err(OrMemory::Refused(QueryFaultKind::BadParenthesis)),
        }
    }

    /// Adds an operand to the innermost group, negated by each `not` directly before it.
    fn place(&mut self, alloc: Global, mut node: Node) -> Result<(), OrMemory<QueryFaultKind>>
        ensures { Gives (λ _. state_of_reader self.new) refusal result (Ok (state_after_operand
            (shown_stack self.old.waiting.items) (shown_level self.old.level) (query_of node))) }
    {
        'nots: while is_negated(self.waiting.as_slice()) {
            self.waiting.truncate(self.waiting.len() - 1);
            node = negated(alloc, node)?;
        }
        self.level.members.push(node)?;
        self.wanted = false;
        Ok(())
    }
}

/// Returns whether the innermost open item is a `not`.
fn is_negated(waiting: &[Waiting]) -> bool
    ensures { result ≡ is_negated (shown_stack waiting.now) }
{
    match waiting.split_last() {
        None => false,
        Some((last, _)) => match last {
            Waiting::ForNot => true,
            Waiting::ForClose(_) => false,
        },
    }
}

/// Returns whether any `(` is open.
fn has_open(waiting: &[Waiting]) -> bool
    ensures { result ≡ has_open (shown_stack waiting.now) }
{
    'all: for what in waiting {
        if let Waiting::ForClose(_) = what {
            return true;
        }
    }
    false
}
