//! The parameters of a query: a line for each, with an example and what it asks for.
ghost use Rattle.ac_base.specs.Writing.{Pushes};
ghost use Rattle.ac_run.specs.Outputs.Parameters.{parameters_text};

use ac_base::{Sink, WriteFailed, push_pieces};

/// Pushes the parameters of a query.
#[tactic(auto, unfolding(crate::specs::Outputs::Parameters::parameters_text))]
pub(crate) fn push_parameters<W: Sink>(out: &mut W) -> Result<(), WriteFailed>
    ensures { Pushes W.taken W.failures out.old out.new result parameters_text }
{
    push_pieces(
        out,
        &[
            b"resources=VCPU:2,DISK_GB:20            how much of each class\n",
            b"required=HW_CPU_X86_AVX2,!CUSTOM_OLD   traits to have, and behind ! not to have\n",
            b"required=in:CUSTOM_A,CUSTOM_B          one of these traits (1.39), repeatable\n",
            b"member_of=in:UUID,UUID                 in one of these aggregates, repeatable\n",
            b"member_of=!in:UUID,UUID                in none of these aggregates, repeatable\n",
            b"in_tree=UUID                           in the tree of this provider\n",
            b"resources_NET=SRIOV_NET_VF:1           a granular group, of any suffix\n",
            b"required_NET=CUSTOM_PHYSNET_1          its traits\n",
            b"member_of_NET=UUID                     its aggregates\n",
            b"in_tree_NET=UUID                       its tree\n",
            b"group_policy=isolate                   granular groups apart; or none\n",
            b"same_subtree=_NET,_GPU                 one of these groups above all of them\n",
            b"root_required=COMPUTE_NODE,!CUSTOM_OLD traits of the root provider\n",
            b"limit=10                               so many candidates at most\n",
        ],
    )
}
