//! Laws of the changes between two directories.

ghost use Rattle.std.specs.Prelude.{Bool, ◌≤◌};
ghost use Rattle.std.specs.List.{AllByRecursion};
ghost use Rattle.std.specs.FinMap as finite;
ghost use Rattle.schema.specs.Conf.{Conf, IsConf};
ghost use Rattle.tree.specs.Directories.{Entries, IsDirectory};
ghost use Rattle.ldif.specs.Changes.{IsWritableChange};
ghost use Rattle.differences.specs.Differences.{Extent, whole, IsGoal, changes_between};
ghost use Rattle.differences.specs.Texts.{LeadsByText};
ghost use Rattle.differences.specs.Obstacles.{LeadsWhereClear};
ghost use Rattle.differences.specs.Follows.{MayLead, Leads, LeadsExactly, AgreeOnFixed, AreAllFree, AsksNoFixed};
ghost use Rattle.differences.specs.Follows.{NothingBetween, IsClosed, HasGoalOfSets};

/// The changes between two directories, carried out one after the other as ldapmodify does, lead from the first to what is to be there, but for the
/// attributes that users can't change; none of them is refused. What is to be there has to be a directory, too: the parent of each entry is there.
pub fn changes_lead()
    ensures { (conf : Conf) (extent : Extent) (a b goal : Entries) → IsConf conf → IsDirectory conf a → IsDirectory conf b
        → IsGoal conf extent a b goal → IsDirectory conf goal → MayLead conf a goal → Leads conf extent a b goal }
{
    schema::written_names_are_located();
    dn::written_names_are_read();
    matching::valid_values_are_bytes();
}

/// Where users can change each type, they lead to the second directory itself.
pub fn changes_lead_exactly()
    ensures { (conf : Conf) (a b : Entries) → IsConf conf → IsDirectory conf a → IsDirectory conf b → AreAllFree conf → LeadsExactly conf a b }
{
    changes_lead();
}

/// They lead there where both directories have the same that users can't change.
pub fn agreeing_directories_may_lead()
    ensures { (conf : Conf) (a b : Entries) → IsDirectory conf b → AgreeOnFixed conf a b → MayLead conf a b }
{}

/// They lead there, whatever the directories, where no class asks for a type that users can't change.
pub fn no_class_asks_for_fixed()
    ensures { (conf : Conf) (a b : Entries) → IsConf conf → AsksNoFixed conf → IsDirectory conf b → MayLead conf a b }
{}

/// Between a directory and itself there is nothing to change.
pub fn nothing_is_between_alike()
    ensures { (conf : Conf) (a : Entries) → NothingBetween conf a a }
{}

/// The changes between two directories can be written.
pub fn changes_are_written()
    ensures { (conf : Conf) (extent : Extent) (a b goal : Entries) → IsConf conf → IsDirectory conf a → IsDirectory conf b
        → IsGoal conf extent a b goal → IsDirectory conf goal → AllByRecursion IsWritableChange (changes_between conf extent a b) }
{
    schema::written_names_are_located();
    schema::printed_names_name_their_types();
    schema::valid_values_are_bytes();
    dn::written_names_are_read();
    matching::valid_values_are_bytes();
}

/// `ldapmodify` with the text of the changes between two directories leads from the first to what is to be there, but for the attributes that users
/// can't change, and refuses no record.
pub fn changes_lead_by_text()
    ensures { (conf : Conf) (extent : Extent) (a b goal : Entries) (go_on : Bool) → IsConf conf → IsDirectory conf a → IsDirectory conf b
        → IsGoal conf extent a b goal → IsDirectory conf goal → MayLead conf a goal → LeadsByText conf extent a b goal go_on }
{
    changes_lead();
    changes_are_written();
    ldif::written_changes_are_read();
}

/// All that the second directory has is what is to be there where all is compared, in its order.
pub fn all_is_the_goal()
    ensures { (conf : Conf) (a b : Entries) → IsGoal conf whole a b b }
{}

/// There is one map of what is to be there.
pub fn a_goal_exists()
    ensures { (conf : Conf) (extent : Extent) (a b : Entries) → (goal : Entries) × IsGoal conf extent a b goal }
{}

/// What is to be there is a directory where the parent of each entry is to be there, and there are no more than there may be.
pub fn closed_goals_are_directories()
    ensures { (conf : Conf) (extent : Extent) (a b goal : Entries) → IsConf conf → IsDirectory conf a → IsDirectory conf b
        → IsGoal conf extent a b goal → IsClosed goal → finite.len goal ≤ 4294967295 → IsDirectory conf goal }
{
    entries::classes_are_kept();
}

/// Where all is compared as sets, what is to be there is a directory with the second one's entries, each with the same types and equal sets of values;
/// and the changes lead there where they lead to the second directory itself.
pub fn sets_are_the_goal()
    ensures { (conf : Conf) (a b : Entries) → IsConf conf → IsDirectory conf a → IsDirectory conf b → HasGoalOfSets conf a b }
{
    entries::classes_are_kept();
}

/// Where nothing keeps a change from being carried out, `ldapmodify` with the text of the changes leads to what is to be there, and refuses no record.
pub fn clear_changes_lead_by_text()
    ensures { (conf : Conf) (extent : Extent) (a b : Entries) → IsConf conf → IsDirectory conf a → IsDirectory conf b → LeadsWhereClear conf extent a b }
{
    entries::classes_are_kept();
    closed_goals_are_directories();
    changes_lead_by_text();
}
