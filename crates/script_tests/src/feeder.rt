//! A small feeder in short.

/// The nodes a1, a2 and a3, the source e1, the breaker b1, the segment 51 of 100 m and the consumer c1, one behind another.
pub(crate) const FEEDER: &str = r#"~a1> a <:ConnectivityNode> .
~a2> a <:ConnectivityNode> .
~a3> a <:ConnectivityNode> .
~e1> a <:EnergySource> .
~b1> a <:Breaker> .
~b1> <:Switch.normalOpen> "false" .
~51> a <:ACLineSegment> .
~51> <:Conductor.length> "100" .
~c1> a <:EnergyConsumer> .
~71> a <:Terminal> .
~71> <:Terminal.ConductingEquipment> ~e1> .
~71> <:Terminal.ConnectivityNode> ~a1> .
~72> a <:Terminal> .
~72> <:Terminal.ConductingEquipment> ~b1> .
~72> <:Terminal.ConnectivityNode> ~a1> .
~73> a <:Terminal> .
~73> <:Terminal.ConductingEquipment> ~b1> .
~73> <:Terminal.ConnectivityNode> ~a2> .
~74> a <:Terminal> .
~74> <:Terminal.ConductingEquipment> ~51> .
~74> <:Terminal.ConnectivityNode> ~a2> .
~74> <:ACDCTerminal.sequenceNumber> "1" .
~75> a <:Terminal> .
~75> <:Terminal.ConductingEquipment> ~51> .
~75> <:Terminal.ConnectivityNode> ~a3> .
~75> <:ACDCTerminal.sequenceNumber> "2" .
~76> a <:Terminal> .
~76> <:Terminal.ConductingEquipment> ~c1> .
~76> <:Terminal.ConnectivityNode> ~a3> .
~a6> a <:ConnectivityNode> .
~e2> a <:EnergySource> .
~7c> a <:Terminal> .
~7c> <:Terminal.ConductingEquipment> ~e2> .
~7c> <:Terminal.ConnectivityNode> ~a6> .
"#;
