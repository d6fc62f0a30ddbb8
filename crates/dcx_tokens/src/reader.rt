//! Reading a text from left to right: its tokens so far, the indentations that stand and the brackets that are open.
ghost use Rattle.std.specs.Prelude.{◌≡◌, ◌≤◌, ◌<◌, ◌+◌, ◌∷◌, ◌++◌, length, drop, replicate, [], OnOk, IfOk, Ok};
ghost use Rattle.dcx_tokens.specs.Front.{HasEnough};
ghost use Rattle.dcx_tokens.specs.Position.{bytes_of, IsInText};

use crate::fault::ReadFault;
use crate::front::{Front, blank_run, comment_run, front_of, has_tab, line_end_count};
use crate::layout::{closes_bracket, is_deeper, is_standing, kept_count, opens_bracket};
use crate::lexeme::token;
use crate::position::{Position, behind_all, behind_last_line};
use crate::token::{Symbol, Token, TokenKind};
use dcx_shape::Place;
use std::alloc::AllocError;

/// The most brackets and indentations that are open together.
const MOST_OPEN: usize = 64;

/// How far the line is read that stands here.
#[derive(Clone, Copy)]
pub(crate) enum Line {
    /// It has no token yet, and so many blanks in front, with a tab among them or not.
    Lead { spaces: usize, has_tab: bool },
    /// It has a token, or goes on inside brackets.
    Begun,
}

/// What is read so far.
#[derive(Drop)]
pub(crate) struct Reader {
    pub tokens: Vec<Token>,
    pub indents: Vec<usize>,
    pub brackets: Vec<Place>,
    pub line: Line,
    pub at: Position,
}

/// Adds a token so many times.
fn push_times(tokens: &mut Vec<Token>, token: Token, count: usize) -> Result<(), AllocError>
    ensures { OnOk result (tokens.new.items ≡ tokens.old.items ++ replicate count token) }
{
    for _ in 0..count {
        tokens.push(token)?;
    }
    Ok(())
}

impl Reader {
    ghost use Rattle.dcx_tokens.specs.State.{
      put,
      dedent_at,
      begin_line,
      line_begun,
      nested,
      nested_by,
      token_read,
      blanks_read,
      comment_read,
      line_ended,
      line_end_read,
      line_supplied,
      step,
      finished,
      is_full,
    };
    ghost use Rattle.dcx_tokens.specs.View.{state_of, Gives, HasRoom, IsBefore};

    /// Whether 64 brackets and indentations are open.
    fn is_full(&self) -> bool
        requires { HasRoom self.now }
        ensures { result ≡ is_full (state_of self.now) }
    {
        self.indents.len() + self.brackets.len() >= MOST_OPEN
    }

    /// Adds a token of these characters, and moves behind them.
    fn put(&mut self, kind: TokenKind, chars: &[char]) -> Result<(), ReadFault>
        requires within { IsInText self.old.at }
        requires before { IsBefore self.old chars.now }
        ensures gives { Gives self.new result (put (state_of self.old) kind chars.now, Ok tt) }
        ensures within { OnOk result (IsInText self.new.at) }
        ensures offset { OnOk result (self.new.at.offset ≡ self.old.at.offset + bytes_of chars.now) }
        ensures open { OnOk result ((self.new.indents ≡ self.old.indents) × (self.new.brackets ≡ self.old.brackets)) }
    {
        let behind = behind_all(self.at, chars);
        self.tokens.push(Token {
            kind,
            start: self.at.offset,
            end: behind.offset,
            place: self.at.place,
        })?;
        self.at = behind;
        Ok(())
    }

    /// The first token of a line comes behind so many blanks, with a tab among them or not.
    fn begin_line(&mut self, spaces: usize, has_tab: bool) -> Result<(), ReadFault>
        requires within { IsInText self.old.at }
        requires before { IsBefore self.old [] }
        requires room { HasRoom self.old }
        ensures gives { Gives self.new result (begin_line (state_of self.old) spaces has_tab) }
        ensures at { OnOk result (self.new.at ≡ self.old.at) }
        ensures room { OnOk result (HasRoom self.new) }
    {
        if has_tab {
            return Err(ReadFault::Indent(self.at.place));
        }
        if is_deeper(&self.indents, spaces) {
            if self.is_full() {
                return Err(ReadFault::TooDeep(self.at.place));
            }
            self.put(TokenKind::Indent, &[])?;
            self.indents.push(spaces)?;
        } else {
            if !is_standing(&self.indents, spaces) {
                return Err(ReadFault::Indent(self.at.place));
            }
            let keep = kept_count(&self.indents, spaces);
            let token = self.dedent(self.at.place);
            push_times(&mut self.tokens, token, self.indents.len() - keep)?;
            self.indents.truncate(keep);
        }
        self.line = Line::Begun;
        Ok(())
    }

    /// The end of an indentation, at this place.
    fn dedent(&self, place: Place) -> Token
        ensures { result ≡ dedent_at (state_of self.now) place }
    {
        Token {
            kind: TokenKind::Dedent,
            start: self.at.offset,
            end: self.at.offset,
            place,
        }
    }

    /// A token comes: the first of its line begins it.
    fn line_begun(&mut self) -> Result<(), ReadFault>
        requires within { IsInText self.old.at }
        requires before { IsBefore self.old [] }
        requires room { HasRoom self.old }
        ensures gives { Gives self.new result (line_begun (state_of self.old)) }
        ensures at { OnOk result (self.new.at ≡ self.old.at) }
        ensures room { OnOk result (HasRoom self.new) }
    {
        match self.line {
            Line::Begun => Ok(()),
            Line::Lead { spaces, has_tab } => self.begin_line(spaces, has_tab),
        }
    }

    /// A token opens or closes a bracket.
    fn nest(&mut self, kind: TokenKind) -> Result<(), ReadFault>
        requires room { HasRoom self.old }
        ensures gives { Gives self.new result (nested (state_of self.old) kind) }
        ensures at { OnOk result (self.new.at ≡ self.old.at) }
        ensures room { OnOk result (HasRoom self.new) }
    {
        match kind {
            TokenKind::Sign(symbol) => self.nest_by(symbol),
            _ => Ok(()),
        }
    }

    /// A sign opens or closes a bracket.
    fn nest_by(&mut self, symbol: Symbol) -> Result<(), ReadFault>
        requires room { HasRoom self.old }
        ensures gives { Gives self.new result (nested_by (state_of self.old) symbol) }
        ensures at { OnOk result (self.new.at ≡ self.old.at) }
        ensures room { OnOk result (HasRoom self.new) }
    {
        if opens_bracket(symbol) {
            if self.is_full() {
                return Err(ReadFault::TooDeep(self.at.place));
            }
            self.brackets.push(self.at.place)?;
        } else if closes_bracket(symbol) {
            self.brackets.pop();
        }
        Ok(())
    }

    /// A token: first its line begins, then it is read, then it opens or closes a bracket.
    #[tactic(auto, using(crate::proofs::Bytes::bytes_split))]
    fn read_token(
        &mut self,
        front: Front,
        c: char,
        after: &[char],
        chars: &[char],
    ) -> Result<usize, ReadFault>
        requires whole { chars.now ≡ c ∷ after.now }
        requires enough { HasEnough front c after.now }
        requires within { IsInText self.old.at }
        requires before { IsBefore self.old chars.now }
        requires room { HasRoom self.old }
        ensures gives { Gives self.new result (token_read (state_of self.old) front c after.now) }
        ensures within { OnOk result (IsInText self.new.at) }
        ensures before { IfOk result (λ n. IsBefore self.new (drop n chars.now)) }
        ensures room { OnOk result (HasRoom self.new) }
        ensures some { IfOk result (λ n. 0 < n) }
        ensures fits { IfOk result (λ n. n ≤ length chars.now) }
    {
        self.line_begun()?;
        let (kind, count) = token(self.at.place, front, c, after, chars)?;
        self.nest(kind)?;
        self.put(kind, &chars[..count])?;
        Ok(count)
    }

    /// Blanks: in front of the first token of a line they are its indentation.
    #[tactic(auto, using(crate::proofs::Bytes::bytes_split))]
    fn read_blanks(&mut self, c: char, after: &[char], chars: &[char]) -> usize
        requires whole { chars.now ≡ c ∷ after.now }
        requires within { IsInText self.old.at }
        requires before { IsBefore self.old chars.now }
        ensures gives { blanks_read (state_of self.old) c after.now ≡ (state_of self.new, Ok result) }
        ensures within { IsInText self.new.at }
        ensures before { IsBefore self.new (drop result chars.now) }
        ensures room { HasRoom self.old → HasRoom self.new }
        ensures some { 0 < result }
        ensures fits { result ≤ length chars.now }
    {
        let count = 1 + blank_run(after);
        let blanks = &chars[..count];
        if let Line::Lead { .. } = self.line {
            self.line = Line::Lead {
                spaces: blanks.len(),
                has_tab: has_tab(blanks),
            };
        }
        self.at = behind_all(self.at, blanks);
        count
    }

    /// A comment.
    #[tactic(auto, using(crate::proofs::Bytes::bytes_split))]
    fn read_comment(&mut self, c: char, after: &[char], chars: &[char]) -> usize
        requires whole { chars.now ≡ c ∷ after.now }
        requires within { IsInText self.old.at }
        requires before { IsBefore self.old chars.now }
        ensures gives { comment_read (state_of self.old) c after.now ≡ (state_of self.new, Ok result) }
        ensures within { IsInText self.new.at }
        ensures before { IsBefore self.new (drop result chars.now) }
        ensures room { HasRoom self.old → HasRoom self.new }
        ensures some { 0 < result }
        ensures fits { result ≤ length chars.now }
    {
        let count = 1 + comment_run(after);
        self.at = behind_all(self.at, &chars[..count]);
        count
    }

    /// A line end: it ends a line with a token, outside brackets.
    #[tactic(auto, using(crate::proofs::Bytes::bytes_split))]
    fn read_line_end(&mut self, c: char, after: &[char], chars: &[char]) -> Result<usize, ReadFault>
        requires whole { chars.now ≡ c ∷ after.now }
        requires enough { HasEnough Front.LineEnd c after.now }
        requires within { IsInText self.old.at }
        requires before { IsBefore self.old chars.now }
        requires room { HasRoom self.old }
        ensures gives { Gives self.new result (line_end_read (state_of self.old) c after.now) }
        ensures within { OnOk result (IsInText self.new.at) }
        ensures before { IfOk result (λ n. IsBefore self.new (drop n chars.now)) }
        ensures room { OnOk result (HasRoom self.new) }
        ensures some { IfOk result (λ n. 0 < n) }
        ensures fits { IfOk result (λ n. n ≤ length chars.now) }
    {
        let count = line_end_count(c);
        self.end_line(&chars[..count])?;
        Ok(count)
    }

    /// The end of a line, with these characters.
    fn end_line(&mut self, end: &[char]) -> Result<(), ReadFault>
        requires within { IsInText self.old.at }
        requires before { IsBefore self.old end.now }
        ensures gives { Gives self.new result (line_ended (state_of self.old) self.old.line end.now, Ok tt) }
        ensures within { OnOk result (IsInText self.new.at) }
        ensures offset { OnOk result (self.new.at.offset ≡ self.old.at.offset + bytes_of end.now) }
        ensures open { OnOk result ((self.new.indents ≡ self.old.indents) × (self.new.brackets ≡ self.old.brackets)) }
    {
        let fresh = Line::Lead {
            spaces: 0,
            has_tab: false,
        };
        match self.line {
            Line::Lead { .. } => {
                self.at = behind_all(self.at, end);
                self.line = fresh;
            }
            Line::Begun => {
                if self.brackets.is_empty() {
                    self.put(TokenKind::Newline, end)?;
                    self.line = fresh;
                } else {
                    self.at = behind_all(self.at, end);
                }
            }
        }
        Ok(())
    }

    /// Reads what stands in front: how many characters it has, or which fault is met.
    #[tactic(auto, unfolding(crate::specs::State::step))]
    pub fn step(&mut self, c: char, after: &[char], chars: &[char]) -> Result<usize, ReadFault>
        requires whole { chars.now ≡ c ∷ after.now }
        requires within { IsInText self.old.at }
        requires before { IsBefore self.old chars.now }
        requires room { HasRoom self.old }
        ensures gives { Gives self.new result (step (state_of self.old) c after.now) }
        ensures within { OnOk result (IsInText self.new.at) }
        ensures before { IfOk result (λ n. IsBefore self.new (drop n chars.now)) }
        ensures room { OnOk result (HasRoom self.new) }
        ensures some { IfOk result (λ n. 0 < n) }
        ensures fits { IfOk result (λ n. n ≤ length chars.now) }
    {
        let front = front_of(c, after);
        match front {
            Front::LineEnd => self.read_line_end(c, after, chars),
            Front::Blank => Ok(self.read_blanks(c, after, chars)),
            Front::Comment => Ok(self.read_comment(c, after, chars)),
            Front::Other => Err(ReadFault::BadChar(self.at.place)),
            _ => self.read_token(front, c, after, chars),
        }
    }

    /// The end of the text: its last line ends, and so do all indentations. A bracket that is still open is not closed.
    #[tactic(auto, unfolding(crate::specs::State::finished))]
    pub fn finish(&mut self) -> Result<(), ReadFault>
        requires within { IsInText self.old.at }
        requires before { IsBefore self.old [] }
        ensures gives { Gives self.new result (finished (state_of self.old)) }
    {
        if let Some(opener) = self.brackets.last() {
            return Err(ReadFault::Unclosed(*opener));
        }
        self.supply_line_end()?;
        let token = self.dedent(behind_last_line(self.at));
        push_times(&mut self.tokens, token, self.indents.len())?;
        self.indents.clear();
        Ok(())
    }

    /// The line end that is missing where the last line has a token.
    fn supply_line_end(&mut self) -> Result<(), ReadFault>
        requires within { IsInText self.old.at }
        requires before { IsBefore self.old [] }
        ensures gives { Gives self.new result (line_supplied (state_of self.old) self.old.line, Ok tt) }
        ensures at { OnOk result (self.new.at ≡ self.old.at) }
        ensures open { OnOk result ((self.new.indents ≡ self.old.indents) × (self.new.brackets ≡ self.old.brackets)) }
    {
        match self.line {
            Line::Begun => self.put(TokenKind::Newline, &[]),
            Line::Lead { .. } => Ok(()),
        }
    }
}
