//! Laws above the definitions. Each function has an empty body: its contract is the law.
ghost use Rattle.std.specs.Prelude.{◌≡◌, ◌≢◌, ◌≤◌, ◌++◌, ◌∷◌, [], List, ℕ, All, IsTrue, Contains, codes, ◌⊎◌, length};
ghost use Rattle.std.specs.List.{flat_map};
ghost use Rattle.std.specs.Str.{byte};
ghost use Rattle.desk_text.specs.declared.limits.TheConstants.{LONGEST_TEXT};
ghost use Rattle.desk_text.specs.declared.faults.TextFault.{TextFault};
ghost use Rattle.desk_text.specs.Lines.{lines_of, value_lines, written};
ghost use Rattle.desk_text.specs.BlockGrammar.{Items, IsTree, is_first, is_further};
ghost use Rattle.desk_text.specs.Fields.{Found, IsBlock};
ghost use Rattle.desk_text.specs.BlockFault.{Begins, AreOpen, IsRight, IsFault};
ghost use Rattle.desk_text.specs.Written.{Part, Draft, AreParts, after, lines_of_part, block_text, fields_written, is_value};

/// A line may end with LF or with CR LF, and the last with nothing.
pub fn line_ends()
    ensures feed { (line rest : List ℕ) → All (λ c. c ≢ byte "\n") line → All (λ c. c ≢ byte "\r") line → lines_of (line ++ byte "\n" ∷ rest) ≡ line ∷ lines_of rest }
    ensures returns { (line rest : List ℕ) → All (λ c. c ≢ byte "\n") line → lines_of (line ++ (codes "\r\n" ++ rest)) ≡ line ∷ lines_of rest }
    ensures last { (line : List ℕ) → line ≢ [] → All (λ c. c ≢ byte "\n") line → lines_of line ≡ line ∷ [] }
{}

/// A block has one tree, and so one list of fields.
pub fn one_tree()
    ensures tree { (lines : List (List ℕ)) (a b : Items) → IsTree lines a → IsTree lines b → a ≡ b }
    ensures fields { (text : List ℕ) (a b : List Found) → IsBlock text a → IsBlock text b → a ≡ b }
{}

/// Which lines may follow depends on the open names alone, except for further lines of a value.
pub fn right_lines()
    // Lines that begin a block, and haven't ended it, have one list of open names.
    ensures names { (lines : List (List ℕ)) → Begins lines → lines ≢ [] → (Contains lines (codes "-}") → ⊥) → (names : List (List ℕ)) × AreOpen lines names }
    ensures one { (lines a b : List (List ℕ)) → AreOpen lines a → AreOpen lines b → a ≡ b }
    // A line that is right under them may follow, and so may no other but a further line.
    ensures follows { (lines names : List (List ℕ)) (line : List ℕ) → AreOpen lines names → IsRight names line → Begins (lines ++ line ∷ []) }
    ensures only { (lines names : List (List ℕ)) (line : List ℕ) → AreOpen lines names → Begins (lines ++ line ∷ []) → IsRight names line ⊎ IsTrue (is_further line) }
{}

/// A text that is no block has exactly one fault, and a block of at most `LONGEST_TEXT` bytes has none.
pub fn one_fault()
    ensures some { (text : List ℕ) → ((found : List Found) → IsBlock text found → ⊥) → (fault : TextFault) × IsFault text fault }
    ensures only { (text : List ℕ) (a b : TextFault) → IsFault text a → IsFault text b → a ≡ b }
    ensures none { (text : List ℕ) (found : List Found) (fault : TextFault) → length text ≤ LONGEST_TEXT → IsBlock text found → IsFault text fault → ⊥ }
{}

/// A writer that holds the lines of parts holds, after one part more, the lines of these parts with it.
pub fn parts_add_up()
    ensures { (draft : Draft) (parts : List Part) (part : Part) → draft.text ≡ written (flat_map lines_of_part parts) → (after part draft).text ≡ written (flat_map lines_of_part (parts ++ part ∷ [])) }
{}

/// What was written is read back: the text of parts is a block of the fields written, and of no others.
pub fn reads_back()
    ensures block { (parts : List Part) → AreParts [] parts → IsBlock (block_text parts) (fields_written parts) }
    ensures only { (parts : List Part) (found : List Found) → AreParts [] parts → IsBlock (block_text parts) found → found ≡ fields_written parts }
{}

/// A value of printable characters has one line.
pub fn one_line()
    ensures right { (value : List ℕ) → IsTrue (is_first value) → IsTrue (is_value value) }
    ensures lines { (value : List ℕ) → IsTrue (is_first value) → value_lines value ≡ value ∷ [] }
{}
