//! Laws of what is found: it is what the relations of the definitions ask for.

ghost use Rattle.std.specs.Prelude.{◌≡◌, ℕ, Bool, List, ◌∷◌, None, false, is_some};
ghost use Rattle.std.specs.List.{IsDistinct};
ghost use Rattle.matching.specs.declared.syntax.Syntax.TheVariants.{Octet};
ghost use Rattle.values.specs.declared.types.AttributeType.{AttributeType};
ghost use Rattle.values.specs.declared.types.TypeSyntax.TheVariants.{Plain};
ghost use Rattle.dir_conf.specs.RuleNames.{equality_of, ordering_of, substrings_of, syntax_of};
ghost use Rattle.schema.specs.Conf.{Conf};
ghost use Rattle.tree.specs.Directories.{Entries, IsDirectory};
ghost use Rattle.checks.specs.declared.conf_faults.FoundFault.{FoundFault};
ghost use Rattle.checks.specs.LeftOut.{AreFaultsOf, EachIsCounted};
ghost use Rattle.checks.specs.NearNames.{is_one_of};
ghost use Rattle.checks.specs.EntryValues.{is_same_value};
ghost use Rattle.checks.specs.References.{dangling, EachDangles, EachIsTold};
ghost use Rattle.checks.specs.Warnings.{equality_rules, ordering_rules, substrings_rules, is_syntax};
ghost use Rattle.checks.specs.Sharing.{shared, tell_the_same, EachIsShared, EqualsAreTold};

/// Each value that is told dangles, each that dangles is told, and none is told twice.
pub fn dangling_values_are_told()
    ensures told { (conf : Conf) (d : Entries) (named : List ℕ) → EachDangles conf d named (dangling conf d named) }
    ensures all { (conf : Conf) (d : Entries) (named : List ℕ) → EachIsTold conf d named (dangling conf d named) }
    ensures once { (conf : Conf) (d : Entries) → IsDirectory conf d
        → (named : List ℕ) → IsDistinct is_same_value (dangling conf d named) }
{}

/// Each value that is told is shared, equal values of two entries are told together, and no two that are told are equal.
pub fn shared_values_are_told()
    ensures told { (types : List AttributeType) (d : Entries) (t : ℕ) → EachIsShared types d t (shared types d t) }
    ensures all { (conf : Conf) (d : Entries) → IsDirectory conf d
        → (t : ℕ) → EqualsAreTold conf.types d t (shared conf.types d t) }
    ensures once { (conf : Conf) (d : Entries) → IsDirectory conf d
        → (t : ℕ) → IsDistinct (tell_the_same conf.types t) (shared conf.types d t) }
{}

/// A rule isn't warned of exactly where reading a dir.conf takes it for one. A syntax that is warned of takes any bytes.
pub fn known_rules_are_read()
    ensures equality { (name : List ℕ) → is_one_of equality_rules name ≡ is_some (equality_of name) }
    ensures ordering { (name : List ℕ) → is_one_of ordering_rules name ≡ is_some (ordering_of name) }
    ensures substrings { (name : List ℕ) → is_one_of substrings_rules name ≡ is_some (substrings_of name) }
    ensures syntax { (oid : List ℕ) → is_syntax oid ≡ false → syntax_of oid ≡ Plain Octet }
{}

/// Of the faults of a dir.conf the first is reported, and each that is left out counts with the line of one that is.
pub fn left_out_faults_are_counted()
    ensures first { (text : List ℕ) (f : FoundFault) (others : List FoundFault) (more : Bool)
        → AreFaultsOf text (f ∷ others) more → f.counted_with ≡ None }
    ensures all { (text : List ℕ) (found : List FoundFault) (more : Bool)
        → AreFaultsOf text found more → EachIsCounted found }
{}
