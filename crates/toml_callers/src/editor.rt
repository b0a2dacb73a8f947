//! A record of 20 fields, that is read back from what it writes. It takes no proof, and no attribute.
ghost use Rattle.std.specs.Prelude.{false, pos, refl, true};
ghost use Rattle.basic_toml.specs.Records.{record_faults, record_reads};
ghost use Rattle.basic_toml_returns.proofs.RecordsReturn.{record_back};
ghost use Rattle.basic_toml_returns.specs.RoundTrips.{as_read, done, maybe, needed, or, record_calls, record_holds, strict};

use basic_toml::{Deserialize, Error, Node, Record, Serialize, Serializer, Tree, WriteError};
use basic_toml_returns::{Returns, RoundTrip, write_record};
use basic_toml_typed::read_record;
use std::alloc::Global;

/// How an editor shows a text, and what it does with it.
#[derive(Drop)]
pub struct Editor {
    pub font: String,
    pub size: u16,
    pub theme: Option<String>,
    pub line_numbers: bool,
    pub tab_width: u8,
    pub tabs: bool,
    pub wrap_at: Option<u32>,
    pub language: String,
    pub undo_steps: u64,
    pub scroll_lines: i8,
    pub cursor: Option<String>,
    pub blink: bool,
    pub rulers: Option<Vec<u16>>,
    pub backup: bool,
    pub backup_folder: Option<String>,
    pub save_after: u32,
    pub spelling: Option<String>,
    pub words: Option<Vec<String>>,
    pub recent: u8,
    pub zoom: i64,
}

impl RoundTrip for Editor {
    ghost fields = { strict
        (needed ⟦<String as Returns<'static>>⟧ "font" (λ s. s.font)
        (or ⟦<u16 as Returns<'static>>⟧ "size" 12 (λ s. s.size)
        (maybe ⟦<String as Returns<'static>>⟧ "theme" (λ s. s.theme)
        (or ⟦<bool as Returns<'static>>⟧ "line_numbers" true (λ s. s.line_numbers)
        (or ⟦<u8 as Returns<'static>>⟧ "tab_width" 4 (λ s. s.tab_width)
        (or ⟦<bool as Returns<'static>>⟧ "tabs" false (λ s. s.tabs)
        (maybe ⟦<u32 as Returns<'static>>⟧ "wrap_at" (λ s. s.wrap_at)
        (needed ⟦<String as Returns<'static>>⟧ "language" (λ s. s.language)
        (or ⟦<u64 as Returns<'static>>⟧ "undo_steps" 1000 (λ s. s.undo_steps)
        (or ⟦<i8 as Returns<'static>>⟧ "scroll_lines" (pos 3) (λ s. s.scroll_lines)
        (maybe ⟦<String as Returns<'static>>⟧ "cursor" (λ s. s.cursor)
        (or ⟦<bool as Returns<'static>>⟧ "blink" true (λ s. s.blink)
        (maybe ⟦<Vec<u16> as Returns<'static>>⟧ "rulers" (λ s. s.rulers)
        (or ⟦<bool as Returns<'static>>⟧ "backup" true (λ s. s.backup)
        (maybe ⟦<String as Returns<'static>>⟧ "backup_folder" (λ s. s.backup_folder)
        (or ⟦<u32 as Returns<'static>>⟧ "save_after" 300 (λ s. s.save_after)
        (maybe ⟦<String as Returns<'static>>⟧ "spelling" (λ s. s.spelling)
        (maybe ⟦<Vec<String> as Returns<'static>>⟧ "words" (λ s. s.words)
        (or ⟦<u8 as Returns<'static>>⟧ "recent" 10 (λ s. s.recent)
        (needed ⟦<i64 as Returns<'static>>⟧ "zoom" (λ s. s.zoom)
        done)))))))))))))))))))) };
}

impl Record for Editor {
    ghost fields = { as_read ⟦<Editor as RoundTrip>⟧.fields };
}

impl<'de> Deserialize<'de> for Editor {
    ghost reads = { record_reads ⟦<Editor as Record>⟧.fields };

    ghost faults = { record_faults ⟦<Editor as Record>⟧.fields };

    fn deserialize(alloc: Global, node: Node<'_, 'de>) -> Result<Editor, Error> {
        read_record!(alloc, node, only Editor {
            font = needed("font"),
            size = or("size", 12),
            theme = maybe("theme"),
            line_numbers = or("line_numbers", true),
            tab_width = or("tab_width", 4),
            tabs = or("tabs", false),
            wrap_at = maybe("wrap_at"),
            language = needed("language"),
            undo_steps = or("undo_steps", 1000),
            scroll_lines = or("scroll_lines", 3),
            cursor = maybe("cursor"),
            blink = or("blink", true),
            rulers = maybe("rulers"),
            backup = or("backup", true),
            backup_folder = maybe("backup_folder"),
            save_after = or("save_after", 300),
            spelling = maybe("spelling"),
            words = maybe("words"),
            recent = or("recent", 10),
            zoom = needed("zoom"),
        })
    }

    fn from_tree(alloc: Global, tree: Tree<'de>) -> Result<Editor, Error> {
        Editor::deserialize(alloc, tree.root())
    }
}

impl Serialize for Editor {
    ghost calls = { record_calls ⟦<Editor as RoundTrip>⟧.fields };

    ghost holds = { record_holds ⟦<Editor as RoundTrip>⟧.fields };

    fn serialize(&self, _alloc: Global, ser: &mut Serializer) -> Result<(), WriteError> {
        write_record!(ser, self, Editor {
            font = "font",
            size = "size",
            theme = "theme",
            line_numbers = "line_numbers",
            tab_width = "tab_width",
            tabs = "tabs",
            wrap_at = "wrap_at",
            language = "language",
            undo_steps = "undo_steps",
            scroll_lines = "scroll_lines",
            cursor = "cursor",
            blink = "blink",
            rulers = "rulers",
            backup = "backup",
            backup_folder = "backup_folder",
            save_after = "save_after",
            spelling = "spelling",
            words = "words",
            recent = "recent",
            zoom = "zoom",
        })
    }
}

impl<'de> Returns<'de> for Editor {
    ghost read_back = { record_back ⟦<Editor as RoundTrip>⟧.fields (λ s. refl) };

    ghost returns = { ⟦<Editor as Returns<'static>>⟧.read_back.returns };
}
