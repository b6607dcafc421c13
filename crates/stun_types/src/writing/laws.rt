//! The laws of a message that a writer resumes, and of one that is written by steps. Each function
//! does nothing: its contract is the law.

ghost use Rattle.std.specs.Prelude.{◌≡◌, ℕ, ◌^◌, ◌<◌, ◌≤◌, List, [], ◌∷◌, ◌++◌, length, Option, None, Result, IsOk, false};
ghost use Rattle.std.specs.List.{AllByRecursion};
ghost use Rattle.stun_grammar.specs.Numbers.{IsBytes};
ghost use Rattle.stun_grammar.specs.Attributes.{Attribute, IsAttribute, types};
ghost use Rattle.stun_grammar.specs.Writing.{message_encoding, greatest_length};
ghost use Rattle.stun_grammar.specs.Adding.{appended, grown_length};
ghost use Rattle.stun_grammar.specs.AttributeTypes.{FINGERPRINT};
ghost use Rattle.stun_grammar.specs.ScannedOrder.{has};
ghost use Rattle.stun_grammar.specs.Parsing.{parse_fault};
ghost use Rattle.stun_grammar.specs.Showing.{shown};
ghost use Rattle.stun_grammar.specs.Steps.{Step, IsEncodable, IsOrdinaryStep};
ghost use Rattle.stun_grammar.specs.declared.error.StunWriteError.{StunWriteError};
ghost use Rattle.stun_types.specs.declared.writing.steps.Step.{Step as RunStep};
ghost use Rattle.stun_types.specs.Writers.{Writer};
ghost use Rattle.stun_types.specs.Runs.{accepted, Writes};
ghost use Rattle.stun_types.specs.Resuming.{message_types, whole_fault, resume_fault, after_step, after_steps, IsAcceptedIn, AreAcceptedIn, shown_more};

/// A message that was begun can be resumed, and has no attributes; and so can any message of
/// encoded attributes that is no longer than a message may be.
pub fn begun_resumes()
    ensures begun { (type id : ℕ) → type < 2 ^ 14
        → (whole_fault (message_encoding type id []) ≡ None)
        × (message_types (message_encoding type id []) ≡ []) }
    ensures written { (type id : ℕ) (attributes : List Attribute)
        → type < 2 ^ 14 → AllByRecursion IsAttribute attributes
        → length (message_encoding type id attributes) ≤ greatest_length
        → (whole_fault (message_encoding type id attributes) ≡ None)
        × (message_types (message_encoding type id attributes) ≡ types attributes) }
    // whatever follows it in its slice
    ensures there { (message more : List ℕ)
        → resume_fault (message ++ more) (length message) ≡ whole_fault message }
{}

/// A message that can be resumed still can be with one more attribute, which then is its last
/// one: so a message may be written step by step, each step by a writer of its own.
pub fn appended_resumes()
    ensures { (message : List ℕ) (atype : ℕ) (value : List ℕ)
        → IsBytes message → atype < 2 ^ 16 → length value < 2 ^ 16
        → whole_fault message ≡ None
        → grown_length (length message) (length value) ≤ greatest_length
        → (whole_fault (appended message atype value) ≡ None)
        × (message_types (appended message atype value) ≡ message_types message ++ atype ∷ []) }
{}

/// A message that can be resumed parses if none of its attributes is a FINGERPRINT. With steps
/// added to it, each of them accepted, it parses if it did before; after one step or more it parses whether it did before or not, since no step is
/// accepted after a FINGERPRINT. The attribute of each step is shown if all attributes before it
/// are; otherwise nothing more is shown.
pub fn resumed_parses()
    ensures unprinted { (message : List ℕ) → whole_fault message ≡ None
        → has FINGERPRINT (message_types message) ≡ false → parse_fault message ≡ None }
    ensures parses { (greatest : Option ℕ) (message : List ℕ) (steps : List Step)
        → IsBytes message → whole_fault message ≡ None → parse_fault message ≡ None
        → AllByRecursion IsEncodable steps → AllByRecursion IsOrdinaryStep steps
        → AreAcceptedIn greatest message steps
        → parse_fault (after_steps message steps) ≡ None }
    ensures more_parses { (greatest : Option ℕ) (message : List ℕ) (step : Step)
        (steps : List Step) → IsBytes message → whole_fault message ≡ None
        → AllByRecursion IsEncodable (step ∷ steps) → AllByRecursion IsOrdinaryStep (step ∷ steps)
        → AreAcceptedIn greatest message (step ∷ steps)
        → parse_fault (after_steps message (step ∷ steps)) ≡ None }
    ensures step_parses { (greatest : Option ℕ) (message : List ℕ) (step : Step)
        → IsBytes message → whole_fault message ≡ None
        → IsEncodable step → IsOrdinaryStep step → IsAcceptedIn greatest message step
        → parse_fault (after_step message step) ≡ None }
    ensures step_shows { (greatest : Option ℕ) (message : List ℕ) (step : Step)
        → IsBytes message → whole_fault message ≡ None
        → IsEncodable step → IsOrdinaryStep step → IsAcceptedIn greatest message step
        → shown (after_step message step) ≡ shown message ++ shown_more message step }
{}

/// The message of accepted steps is the same in each writer: a vector and a slice into which the
/// same steps are written hold the same bytes if they accept the same steps, as they do if both
/// accept all.
pub fn writers_agree<O>()
    ensures same { (type_of : O → ℕ) (value_of : O → List ℕ) (type id : ℕ)
        (steps : List (RunStep O)) (verdicts others : List (Result Unit StunWriteError))
        (old new empty full : Writer)
        → Writes type_of value_of old new type id steps verdicts
        → Writes type_of value_of empty full type id steps others
        → accepted type_of value_of steps verdicts ≡ accepted type_of value_of steps others
        → (new.bytes ≡ full.bytes) × (new.types ≡ full.types) }
    ensures all { (type_of : O → ℕ) (value_of : O → List ℕ) (type id : ℕ)
        (steps : List (RunStep O)) (verdicts others : List (Result Unit StunWriteError))
        (old new empty full : Writer)
        → Writes type_of value_of old new type id steps verdicts
        → Writes type_of value_of empty full type id steps others
        → length verdicts ≡ length steps → length others ≡ length steps
        → AllByRecursion IsOk verdicts → AllByRecursion IsOk others
        → (new.bytes ≡ full.bytes) × (new.types ≡ full.types) }
{}
