//! Scripts with what they are answered, each reply behind its console, and with the history that they leave.

use crate::feeder::FEEDER;
use crate::playing::answers;
use crate::texts::lines;
use std::test::Fail;

/// A script, and what it is answered.
struct Script {
    asked: &'static str,
    answered: &'static str,
}

const SCRIPTS: &[Script] = &[
    Script {
        asked: "c1 open ~b1\nc1 trace ~e1 ABC\nc1 close ~b1\nc1 trace ~e1 ABC\n",
        answered: "c1 ok 1\nc1 trace 1 2\n~b1 ABC\n~e1 ABC\nc1 ok 2\nc1 trace 2 4\n~51 ABC\n~b1 ABC\n~c1 ABC\n~e1 ABC\nhistory 2\n1 c1 1 open ~b1\n2 c1 2 close ~b1\n",
    },
    Script {
        asked: "c1 clamp ~91 ~51 40000\nc1 cut ~92 ~51 60000\nc1 trace ~e1 ABC\nc1 trace ~c1 ABC\n",
        answered: "c1 ok 1\nc1 ok 2\nc1 trace 2 5\n~51 ABC\n~91 ABC\n~92 ABC\n~b1 ABC\n~e1 ABC\nc1 trace 2 3\n~51 ABC\n~92 ABC\n~c1 ABC\nhistory 2\n1 c1 1 clamp ~91 ~51 40000\n2 c1 2 cut ~92 ~51 60000\n",
    },
    Script {
        asked: "c1 cut ~93 ~51 0\nc1 cut ~94 ~51 100000\nc1 cut ~95 ~51 0\nc1 clamp ~95 ~51 0\nc1 cut ~95 ~51 100001\nc1 trace ~e1 ABC\n",
        answered: "c1 ok 1\nc1 ok 2\nc1 no 2 SamePlace ~93\nc1 no 2 SamePlace ~93\nc1 no 2 Length\nc1 trace 2 4\n~51 ABC\n~93 ABC\n~b1 ABC\n~e1 ABC\nhistory 2\n1 c1 1 cut ~93 ~51 0\n2 c1 2 cut ~94 ~51 100000\n",
    },
    Script {
        asked: "c1 cut ~92 ~51 60000\nc1 jumper ~96 s:~92:2 n:~a6 AB\nc1 trace ~e2 ABC\nc1 remove ~92\nc1 ground ~97 n:~a6 ABC\nc1 remove ~97\nc1 remove ~97\n",
        answered: "c1 ok 1\nc1 ok 2\nc1 trace 2 5\n~51 AB\n~92 AB\n~96 AB\n~c1 AB\n~e2 ABC\nc1 no 2 InUse ~96\nc1 ok 3\nc1 ok 4\nc1 no 4 Unknown ~97\nhistory 4\n1 c1 1 cut ~92 ~51 60000\n2 c1 2 jumper ~96 s:~92:2 n:~a6 AB\n3 c1 3 ground ~97 n:~a6 ABC\n4 c1 4 remove ~97\n",
    },
    Script {
        asked: "c1 stage\n%preconditions\n<~51> <:Conductor.length> \"100\" .\n<~51> <:Conductor.length> \"99\" .\n%reverse\n<~51> <:Conductor.length> \"98\" .\n%end\nc1 cutover\nc1 stage\n%preconditions\n<~51> <:Conductor.length> \"100\" .\n%reverse\n<~51> <:Conductor.length> \"98\" .\n%end\nc1 cutover\nc1 look\n",
        answered: "c1 staged 2 1 0\nc1 no 0 Precondition 2\nc1 staged 1 1 0\nc1 no 0 Reverse 1\nc1 seen 0\nhistory 0\n",
    },
    // The segment cannot leave under a cut, and leaves once the cut is gone.
    Script {
        asked: "c1 cut ~92 ~51 60000\nc1 stage\n%reverse\n<~51> a <:ACLineSegment> .\n<~51> <:Conductor.length> \"100\" .\n<~74> a <:Terminal> .\n<~74> <:Terminal.ConductingEquipment> <~51> .\n<~74> <:Terminal.ConnectivityNode> <~a2> .\n<~74> <:ACDCTerminal.sequenceNumber> \"1\" .\n<~75> a <:Terminal> .\n<~75> <:Terminal.ConductingEquipment> <~51> .\n<~75> <:Terminal.ConnectivityNode> <~a3> .\n<~75> <:ACDCTerminal.sequenceNumber> \"2\" .\n%end\nc1 cutover\nc1 remove ~92\nc1 cutover\nc1 trace ~e1 ABC\nc1 cutover\n",
        answered: "c1 ok 1\nc1 staged 0 10 0\nc1 no 1 Place ~92\nc1 ok 2\nc1 ok 3\nc1 trace 3 2\n~b1 ABC\n~e1 ABC\nc1 fault Staged\nhistory 3\n1 c1 1 cut ~92 ~51 60000\n2 c1 2 remove ~92\n3 c1 3 cutover\n%header\n%preconditions\n%reverse\n<~51> a <:ACLineSegment> .\n<~51> <:Conductor.length> \"100\" .\n<~74> a <:Terminal> .\n<~74> <:Terminal.ConductingEquipment> <~51> .\n<~74> <:Terminal.ConnectivityNode> <~a2> .\n<~74> <:ACDCTerminal.sequenceNumber> \"1\" .\n<~75> a <:Terminal> .\n<~75> <:Terminal.ConductingEquipment> <~51> .\n<~75> <:Terminal.ConnectivityNode> <~a3> .\n<~75> <:ACDCTerminal.sequenceNumber> \"2\" .\n%forward\n%end\n",
    },
    // The second console looks back at an old version until it looks again.
    Script {
        asked: "c1 open ~b1\nc2 look\nc2 trace ~e1 ABC\nc1 stage\n%reverse\n<~76> <:Terminal.ConnectivityNode> <~a3> .\n%forward\n<~76> <:Terminal.ConnectivityNode> <~a1> .\n%end\nc1 cutover\nc2 trace ~e1 ABC\nc2 look\nc2 trace ~e1 ABC\nc2 trace ~51 ABC\nc2 look 1\nc3 look 1\nc3 trace ~e1 ABC\nc3 look 3\nc3 look 2\n",
        answered: "c1 ok 1\nc2 seen 1\nc2 trace 1 2\n~b1 ABC\n~e1 ABC\nc1 staged 0 1 1\nc1 ok 2\nc2 trace 1 2\n~b1 ABC\n~e1 ABC\nc2 seen 2\nc2 trace 2 3\n~b1 ABC\n~c1 ABC\n~e1 ABC\nc2 trace 2 2\n~51 ABC\n~b1 ABC\nc2 fault Prefix\nc3 seen 1\nc3 trace 1 2\n~b1 ABC\n~e1 ABC\nc3 fault Prefix\nc3 seen 2\nhistory 2\n1 c1 1 open ~b1\n2 c1 2 cutover\n%header\n%preconditions\n%reverse\n<~76> <:Terminal.ConnectivityNode> <~a3> .\n%forward\n<~76> <:Terminal.ConnectivityNode> <~a1> .\n%end\n",
    },
    // The serial of a console counts its own entries.
    Script {
        asked: "c1 open ~b1\nc2 stage\n%reverse\n<~76> <:Terminal.ConnectivityNode> <~a3> .\n%forward\n<~76> <:Terminal.ConnectivityNode> <~a1> .\n%end\nc2 cutover\nc1 close ~b1\n",
        answered: "c1 ok 1\nc2 staged 0 1 1\nc2 ok 2\nc1 ok 3\nhistory 3\n1 c1 1 open ~b1\n2 c2 1 cutover\n%header\n%preconditions\n%reverse\n<~76> <:Terminal.ConnectivityNode> <~a3> .\n%forward\n<~76> <:Terminal.ConnectivityNode> <~a1> .\n%end\n3 c1 2 close ~b1\n",
    },
    Script {
        asked: "c1 opn x\nc1 open\nc1 open x\nc1 look 1\nc1 cutover\nc1 trace ~ff ABC\nc1 bye\n",
        answered: "c1 fault Word\nc1 fault Count\nc1 fault Field 1\nc1 fault Prefix\nc1 fault Staged\nc1 no 0 NoSuch\nc1 bye\nhistory 0\n",
    },
    // Single refusals, each on the base; a refused submit moves what its console has seen.
    Script {
        asked: "c1 open ~ff\nc1 cut ~51 ~ff 0\nc1 cut ~51 ~51 0\nc1 cut ~92 ~b1 0\nc1 remove ~b1\nc1 close ~b1\nc1 release ~b1\nc1 ground ~97 n:~51 A\nc1 jumper ~96 n:~a1 n:~a1 AB\nc1 jumper ~96 n:~a1 n:~a2 -\nc2 open ~b1\nc1 close ~e1\nc1 look 0\nc1 trace ~e1 ABC\n",
        answered: "c1 no 0 Unknown ~ff\nc1 no 0 Unknown ~ff\nc1 no 0 Taken ~51\nc1 no 0 Kind ~b1\nc1 no 0 Permanent ~b1\nc1 no 0 Already\nc1 no 0 NotHeld\nc1 no 0 NoAnchor 1\nc1 no 0 SameAnchor\nc1 no 0 Phases\nc2 ok 1\nc1 no 1 Kind ~e1\nc1 fault Prefix\nc1 trace 1 2\n~b1 ABC\n~e1 ABC\nhistory 1\n1 c2 1 open ~b1\n",
    },
];

#[test]
fn scripts_are_answered(rt: HostRuntime) -> Result<(), Fail> {
    let alloc = rt.alloc();
    for (number, script) in SCRIPTS.iter().enumerate() {
        let asked = lines(alloc, script.asked)?;
        let told = answers(alloc, FEEDER, asked.as_bytes())?;
        assert_eq!(rt; told, lines(alloc, script.answered)?, "script {number}");
    }
    Ok(())
}
