// Lists in JSON, each item written by a word of its own.
ghost use Rattle.std.specs.Prelude.{◌≡◌, ◌+◌, ◌*◌, ◌≤◌, ◌++◌, true, OnOk, length, map};
ghost use Rattle.std.specs.List.{list_all};
ghost use Rattle.serde_json.specs.Data.{array};
ghost use Rattle.serde_json.specs.View.{items_of};
ghost use Rattle.serde_json.specs.Written.{compact_text};
ghost use Rattle.reply_codec.specs.ReplyTokens.{tokens_of};

use json::Writer;
use std::alloc::AllocError;

// What JSON is written for: which value, of which things, and how many bytes its text has at most.
pub(crate) trait Spelled {
    ghost use Rattle.std.specs.Prelude.{◌≡◌, ◌≤◌, ◌++◌, ℕ, Bool, true, OnOk, length};
    ghost use Rattle.serde_json.specs.Data.{Data};
    ghost use Rattle.serde_json.specs.Written.{compact_text};
    ghost use Rattle.reply_codec.specs.ReplyTokens.{tokens_of};

    ghost spelled: { Self → Data };

    ghost fits: { Self → Bool };

    ghost most: { ℕ };

    // Writes the value. An `Err` is want of memory.
    fn put(&self, writer: &mut Writer) -> Result<(), AllocError>
        requires { fits self.now ≡ true }
        ensures written { OnOk result (writer.new.tokens ≡ writer.old.tokens ++ tokens_of (spelled self.now)) }
        ensures before { writer.new.before ≡ writer.old.before }
        ensures few { OnOk result (length (compact_text (spelled self.now)) ≤ most) };
}

// Writes the list of the values of some items. An `Err` is want of memory.
pub(crate) fn put_list<T: Spelled>(writer: &mut Writer, items: &[T]) -> Result<(), AllocError>
    requires { list_all T.fits items.now ≡ true }
    ensures written { OnOk result (writer.new.tokens ≡ writer.old.tokens ++ tokens_of (array (items_of (map T.spelled items.now)))) }
    ensures before { writer.new.before ≡ writer.old.before }
    ensures few { OnOk result (length (compact_text (array (items_of (map T.spelled items.now)))) ≤ 2 + (1 + T.most) * length items.now) }
{
    writer.begin_array()?;
    'items: for item in items {
        item.put(writer)?;
    }
    writer.end_array()
}
