//! What holds of every content and every line, as contracts of functions that do nothing.
ghost use Rattle.std.specs.Prelude.{◌≡◌, ◌≤◌, ◌<◌, ◌∷◌, ◌++◌, [], ℕ, List, length, Some, IsTrue};
ghost use Rattle.irc_line.specs.Lines.{Parts, is_line, spelling};
ghost use Rattle.irc_line.specs.Grammar.{AreContent, IsFirstBad, IsLine};
ghost use Rattle.irc_line.specs.Reading.{HasFault, HasFew, HasLine, IsClean, IsShort, Says, SaysNothing, read};
ghost use Rattle.irc_line.specs.Splitting.{HasNoLineFeed, IsCutAnywhere, ItemsAreOfBoth, content_item, ended_items, items, unended, without_return};
ghost use Rattle.irc_line.specs.declared.fault.LineFault.{LineFault};
ghost use Rattle.irc_line.specs.declared.item.Item.{Item};
ghost use Rattle.irc_line.specs.Limits.{content_limit, line_limit, parameter_limit};

/// Reading a content gives what the grammar gives, and nothing where the grammar gives nothing.
pub fn the_reading_is_the_grammar()
    ensures complete { (content : List ℕ) (p : Parts) → IsLine content p → read content ≡ Some p }
    ensures sound { (content : List ℕ) (p : Parts) → read content ≡ Some p → IsLine content p }
{}

/// Every content has exactly one of these judgements: a fault, which is the first that holds in
/// this order, or its parts.
pub fn the_faults_have_an_order()
    ensures too_long { (s : List ℕ) → line_limit < length s → HasFault s LineFault.TooLong }
    ensures bad_byte { (s : List ℕ) (place : ℕ) → length s ≤ line_limit → IsFirstBad s place →
        HasFault s (LineFault.BadByte place) }
    ensures no_command { (s : List ℕ) → IsClean s → SaysNothing s → HasFault s LineFault.NoCommand }
    ensures too_many_parameters { (s : List ℕ) (p : Parts) → Says s p →
        parameter_limit < length p.parameters →
        HasFault s LineFault.TooManyParameters }
    ensures spelled_too_long { (s : List ℕ) (p : Parts) → Says s p → HasFew p →
        line_limit < length (spelling p) →
        HasFault s LineFault.TooLong }
    ensures line { (s : List ℕ) (p : Parts) → Says s p → HasFew p → IsShort p → HasLine s p }
{}

/// The canonical spelling of a line of at most 511 bytes is read back as that line, what is read is
/// such a line, and no two lines have one spelling.
pub fn the_spelling_reads_back()
    ensures read_back { (p : Parts) → IsTrue (is_line p) → IsShort p → HasLine (spelling p) p }
    ensures is_a_line { (content : List ℕ) (p : Parts) → HasLine content p → IsTrue (is_line p) }
    ensures fits { (content : List ℕ) (p : Parts) → HasLine content p → IsShort p }
    ensures one_line { (p q : Parts) → IsTrue (is_line p) → IsTrue (is_line q) →
        spelling p ≡ spelling q → p ≡ q }
{}

/// The values of `Line` are what contents can say: what the grammar gives for a content within 15
/// parameters is one, and each is said by its canonical spelling, of any length.
pub fn a_line_is_what_a_content_says()
    ensures given { (s : List ℕ) (p : Parts) → IsLine s p → AreContent s → HasFew p →
        IsTrue (is_line p) }
    ensures said { (p : Parts) → IsTrue (is_line p) → IsLine (spelling p) p }
    ensures content { (p : Parts) → IsTrue (is_line p) → AreContent (spelling p) }
    ensures few { (p : Parts) → IsTrue (is_line p) → HasFew p }
{}

/// The items of bytes are those of what lies between their LFs, in however many pieces they come;
/// what follows the last LF gives nothing until its own LF comes.
pub fn the_items_are_what_line_feeds_end()
    ensures none { (s : List ℕ) → HasNoLineFeed s → (items s ≡ []) × (unended s ≡ s) }
    ensures one { (ended rest : List ℕ) → HasNoLineFeed ended → ItemsAreOfBoth ended rest }
    ensures left { (ended rest : List ℕ) → HasNoLineFeed ended →
        unended (ended ++ 10 ∷ rest) ≡ unended rest }
    ensures cut { (fed more : List ℕ) → IsCutAnywhere fed more }
{}

/// What lies between two LFs gives at most one item: none for an empty content, `TooLong` for one
/// of more than 510 bytes, else what the content is judged to be. One CR at its end does not belong
/// to the content.
pub fn an_item_is_what_its_content_is()
    ensures with_return { (content : List ℕ) → without_return (content ++ 13 ∷ []) ≡ content }
    ensures without_return { (s : List ℕ) (b : ℕ) → ¬ (b ≡ 13) →
        without_return (s ++ b ∷ []) ≡ s ++ b ∷ [] }
    ensures empty { (ended : List ℕ) → without_return ended ≡ [] → ended_items ended ≡ [] }
    ensures some { (ended : List ℕ) → 0 < length (without_return ended) →
        ended_items ended ≡ content_item (without_return ended) ∷ [] }
    ensures too_long { (content : List ℕ) → content_limit < length content →
        content_item content ≡ Item.Refused LineFault.TooLong }
    ensures got { (s : List ℕ) (p : Parts) → length s ≤ content_limit → HasLine s p →
        content_item s ≡ Item.Got p }
    ensures refused { (s : List ℕ) (e : LineFault) → length s ≤ content_limit → HasFault s e →
        content_item s ≡ Item.Refused e }
    ensures not_memory { (s : List ℕ) → ¬ (content_item s ≡ Item.Refused LineFault.Memory) }
{}
