//! The board of a plant, kept in step with its history.
ghost use Rattle.std.specs.Prelude.{◌≡◌, ◌<◌, ◌≤◌, ◌+◌, ◌*◌, ◌%◌, ◌^◌, ◌∷◌, [], length, slice_get, slice_index};
ghost use Rattle.std.specs.Prelude.{slice_set, true, Some, IfOk, option_map};
ghost use Rattle.mtp_codes.specs.declared.limits.TheConstants.{LONGEST_HISTORY, MOST_MODULES};
ghost use Rattle.pol_board.specs.Words.{number_of};
ghost use Rattle.pol_events.specs.Events.{plain_entry, plain_event, plain_history};
ghost use Rattle.pol_events.specs.Subjects.{accepted_tag};
ghost use Rattle.pol_history.specs.Looking.{is_accepted_of};
ghost use Rattle.pol_site.specs.Shown.{shown_by};
ghost use Rattle.pol_site.specs.PlainSite.{plain_site};
ghost use Rattle.pol_shown.specs.Displays.{Shows, name_in};
ghost use Rattle.pol_shown.specs.Followed.{ShowsBelow, before_newest, name_after, published};

use crate::shown::{name_after, shown_by};
use crate::watcher::Watcher;
use mtp_codes::Name;
use pol_board::{Board, Publisher};
use pol_events::{Entry, Event};
use pol_site::Site;
use std::alloc::{AllocError, Global};
use std::marker::Model;
use std::sync::Arc;

/// How many words of the board a module has.
const WORDS: usize = 32;

/// A status board with its publisher. Contracts see which board it is, the words that were published last, and at each
/// word the name of the service that it is about.
#[derive(Drop)]
pub struct Display {
    board: Arc<Board>,
    publisher: Publisher,
    // For each word the name of its service, where the module's description has that many.
    names: Vec<Option<Name>>,
}

impl Model for Display {
    ghost use Rattle.std.specs.Prelude.{length};
    ghost use Rattle.pol_shown.specs.Displays.{Displayed, IsOfBoard, displayed_code};

    ghost Value = { Displayed };

    ghost coded = { displayed_code };

    ghost view = { λ display. record {
      board = display.board.value;
      words = display.publisher.words;
      names = display.names.items;
    } };

    ghost invariant = { λ display. IsOfBoard display.board.value display.publisher.board (length display.names.items) };
}

impl Display {
    /// A board for the modules of a site. It shows the empty history.
    ///
    /// # Errors
    ///
    /// Where there is no memory.
    pub fn new(alloc: Global, site: &Site) -> Result<Display, AllocError>
        ensures { IfOk result (λ display. Shows (plain_site site.now) [] display) }
    {
        let count = WORDS * site.modules.len();
        let names = vec![in alloc; None; count]?;
        let (board, publisher) = Board::new(alloc, count as u32)?;
        Ok(Display {
            board: Arc::new(alloc, board)?,
            publisher,
            names,
        })
    }

    /// One who watches the board, and knows what was published so far.
    ///
    /// # Errors
    ///
    /// Where the board can't be shared once more.
    pub fn watcher(&mut self) -> Result<Watcher, AllocError>
        ensures same { self.new ≡ self.old }
        ensures board { IfOk result (λ watcher. watcher.board ≡ self.old.board) }
        ensures told { IfOk result (λ watcher. watcher.words ≡ self.old.words) }
    {
        let board = self.board.clone()?;
        let reader = self.publisher.reader(&self.board);
        Ok(Watcher::new(board, reader, self.names.len() as u32))
    }

    // Publishes what an accepted event of a module shows at one of its words.
    fn follow_word(&mut self, word: usize, event: &Event, number: u64)
        requires word { word < self.old.board.words }
        requires number { (number < 2 ^ 46) × (number_of (slice_index self.old.words word) < number) }
        ensures board { self.new.board ≡ self.old.board }
        ensures words { self.new.words
            ≡ published (shown_by (name_in self.old.names word) (plain_event event.now)) word number self.old.words }
        ensures names { self.new.names ≡ slice_set self.old.names word
            (name_after (word % 32) (plain_event event.now) (name_in self.old.names word)) }
    {
        let shown = shown_by(self.names[word], event);
        if let Some(state) = shown {
            self.publisher
                .publish(&self.board, word as u32, number, state);
        }
        let name = name_after(word % WORDS, event, self.names[word]);
        self.names[word] = name;
    }

    // Publishes what an accepted event of the module at a place shows at its words.
    fn follow_module(&mut self, site: &Site, older: &[Entry], entry: &Entry, place: usize)
        requires place { place < MOST_MODULES }
        requires accepted { option_map (λ unit. is_accepted_of unit.tag (plain_entry entry.now))
            (slice_get (plain_site site.now).modules place) ≡ Some true }
        requires short { length older.now < LONGEST_HISTORY }
        requires shown { ShowsBelow (32 * place) (plain_site site.now) (plain_entry entry.now) (plain_history older.now)
            self.old }
        ensures board { self.new.board ≡ self.old.board }
        ensures shown { ShowsBelow (32 * (place + 1)) (plain_site site.now) (plain_entry entry.now)
            (plain_history older.now) self.new }
    {
        let number = older.len() as u64 + 1;
        for word in WORDS * place..WORDS * (place + 1) {
            self.follow_word(word, &entry.event, number);
        }
    }

    // Publishes what an accepted event of the module of a tag shows.
    fn follow_tag(&mut self, site: &Site, older: &[Entry], entry: &Entry, tag: Name)
        requires tag { accepted_tag (plain_entry entry.now) ≡ Some tag }
        requires short { length older.now < LONGEST_HISTORY }
        requires shown { Shows (plain_site site.now) (plain_history older.now) self.old }
        ensures board { self.new.board ≡ self.old.board }
        ensures shown { Shows (plain_site site.now) (plain_entry entry.now ∷ plain_history older.now) self.new }
    {
        for place in 0..site.modules.len() {
            if tag == site.modules[place].tag {
                self.follow_module(site, older, entry, place);
            }
        }
    }

    /// Follows the history by its newest entry, the last: the display showed the history before that, and shows all of
    /// it then. Where the entry is an accepted report, the word of its service says its state; where it is an accepted
    /// begin of an exchange, the words of all services of the module say none; both with the history's length as
    /// number. Nothing else is published. It takes no memory and never waits.
    pub fn follow(&mut self, site: &Site, history: &[Entry])
        requires short { length history.now ≤ LONGEST_HISTORY }
        requires shown { Shows (plain_site site.now) (before_newest (plain_history history.now)) self.old }
        ensures board { self.new.board ≡ self.old.board }
        ensures shown { Shows (plain_site site.now) (plain_history history.now) self.new }
    {
        let Some((entry, older)) = history.split_last() else {
            return;
        };
        if let Some(tag) = entry.accepted_tag() {
            self.follow_tag(site, older, entry, tag);
        }
    }
}
