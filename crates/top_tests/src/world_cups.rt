//! The draws of the World Cups of 2018 and of 2022, as in `examples/`: test data after the
//! published draws. In each pot the teams are drawn in the order of their groups in the result, but
//! for pot 4 of 2022; each ball of the pots 2 to 4 is followed by its position, the number of its
//! pot.

/// The head of 2018.
pub(crate) const WORLD_CUP_2018: &str = r#"{
  "kind": "group",
  "groups": 8,
  "pots": 4,
  "teams": [
    {"code": "RUS", "pot": 1, "tags": ["UEFA"]},
    {"code": "GER", "pot": 1, "tags": ["UEFA"]},
    {"code": "BRA", "pot": 1, "tags": ["CONMEBOL"]},
    {"code": "POR", "pot": 1, "tags": ["UEFA"]},
    {"code": "ARG", "pot": 1, "tags": ["CONMEBOL"]},
    {"code": "BEL", "pot": 1, "tags": ["UEFA"]},
    {"code": "POL", "pot": 1, "tags": ["UEFA"]},
    {"code": "FRA", "pot": 1, "tags": ["UEFA"]},
    {"code": "ESP", "pot": 2, "tags": ["UEFA"]},
    {"code": "PER", "pot": 2, "tags": ["CONMEBOL"]},
    {"code": "SUI", "pot": 2, "tags": ["UEFA"]},
    {"code": "ENG", "pot": 2, "tags": ["UEFA"]},
    {"code": "COL", "pot": 2, "tags": ["CONMEBOL"]},
    {"code": "MEX", "pot": 2, "tags": ["CONCACAF"]},
    {"code": "URU", "pot": 2, "tags": ["CONMEBOL"]},
    {"code": "CRO", "pot": 2, "tags": ["UEFA"]},
    {"code": "DEN", "pot": 3, "tags": ["UEFA"]},
    {"code": "ISL", "pot": 3, "tags": ["UEFA"]},
    {"code": "CRC", "pot": 3, "tags": ["CONCACAF"]},
    {"code": "SWE", "pot": 3, "tags": ["UEFA"]},
    {"code": "TUN", "pot": 3, "tags": ["CAF"]},
    {"code": "EGY", "pot": 3, "tags": ["CAF"]},
    {"code": "SEN", "pot": 3, "tags": ["CAF"]},
    {"code": "IRN", "pot": 3, "tags": ["AFC"]},
    {"code": "SRB", "pot": 4, "tags": ["UEFA"]},
    {"code": "NGA", "pot": 4, "tags": ["CAF"]},
    {"code": "AUS", "pot": 4, "tags": ["AFC"]},
    {"code": "JPN", "pot": 4, "tags": ["AFC"]},
    {"code": "MAR", "pot": 4, "tags": ["CAF"]},
    {"code": "PAN", "pot": 4, "tags": ["CONCACAF"]},
    {"code": "KOR", "pot": 4, "tags": ["AFC"]},
    {"code": "KSA", "pot": 4, "tags": ["AFC"]}
  ],
  "limits": [
    {"tag": "UEFA", "lo": 0, "hi": 2},
    {"tag": "CONMEBOL", "lo": 0, "hi": 1},
    {"tag": "CONCACAF", "lo": 0, "hi": 1},
    {"tag": "CAF", "lo": 0, "hi": 1},
    {"tag": "AFC", "lo": 0, "hi": 1}
  ],
  "places": [
    {"code": "RUS", "group": "A", "position": 1}
  ]
}"#;

/// All balls.
pub(crate) const BALLS_2018: &str = r"ball RUS
ball POR
ball FRA
ball ARG
ball BRA
ball GER
ball BEL
ball POL
ball URU
ball 2
ball ESP
ball 2
ball PER
ball 2
ball CRO
ball 2
ball SUI
ball 2
ball MEX
ball 2
ball ENG
ball 2
ball COL
ball 2
ball EGY
ball 3
ball IRN
ball 3
ball DEN
ball 3
ball ISL
ball 3
ball CRC
ball 3
ball SWE
ball 3
ball TUN
ball 3
ball SEN
ball 3
ball KSA
ball 4
ball MAR
ball 4
ball AUS
ball 4
ball NGA
ball 4
ball SRB
ball 4
ball KOR
ball 4
ball PAN
ball 4
ball JPN
ball 4
";

/// The answer text to them.
pub(crate) const ANSWER_2018: &str = r"draw group 32 teams
next team pot 1: RUS GER BRA POR ARG BEL POL FRA
placed RUS A
next team pot 1: GER BRA POR ARG BEL POL FRA
placed POR B
next team pot 1: GER BRA ARG BEL POL FRA
placed FRA C
next team pot 1: GER BRA ARG BEL POL
placed ARG D
next team pot 1: GER BRA BEL POL
placed BRA E
next team pot 1: GER BEL POL
placed GER F
next team pot 1: BEL POL
placed BEL G
next team pot 1: POL
placed POL H
next team pot 2: ESP PER SUI ENG COL MEX URU CRO
placed URU A
next position URU: 2 3 4
stands URU A2
next team pot 2: ESP PER SUI ENG COL MEX CRO
placed ESP B
next position ESP: 2 3 4
stands ESP B2
next team pot 2: PER SUI ENG COL MEX CRO
placed PER C
next position PER: 2 3 4
stands PER C2
next team pot 2: SUI ENG COL MEX CRO
placed CRO D
next position CRO: 2 3 4
stands CRO D2
next team pot 2: SUI ENG COL MEX
placed SUI E
next position SUI: 2 3 4
stands SUI E2
next team pot 2: ENG COL MEX
placed MEX F
next position MEX: 2 3 4
stands MEX F2
next team pot 2: ENG COL
placed ENG G
next position ENG: 2 3 4
stands ENG G2
next team pot 2: COL
placed COL H
next position COL: 2 3 4
stands COL H2
next team pot 3: DEN ISL CRC SWE TUN EGY SEN IRN
placed EGY A
next position EGY: 3 4
stands EGY A3
next team pot 3: DEN ISL CRC SWE TUN SEN IRN
placed IRN B
next position IRN: 3 4
stands IRN B3
next team pot 3: DEN ISL CRC SWE TUN SEN
placed DEN C
next position DEN: 3 4
stands DEN C3
next team pot 3: ISL CRC SWE TUN SEN
placed ISL D
next position ISL: 3 4
stands ISL D3
next team pot 3: CRC SWE TUN SEN
placed CRC E
next position CRC: 3 4
stands CRC E3
next team pot 3: SWE TUN SEN
placed SWE F
next position SWE: 3 4
stands SWE F3
next team pot 3: TUN SEN
placed TUN G
next position TUN: 3 4
stands TUN G3
next team pot 3: SEN
placed SEN H
next position SEN: 3 4
stands SEN H3
next team pot 4: SRB NGA AUS JPN MAR PAN KOR KSA
placed KSA A
next position KSA: 4
stands KSA A4
next team pot 4: SRB NGA AUS JPN MAR PAN KOR
placed MAR B
next position MAR: 4
stands MAR B4
next team pot 4: SRB NGA AUS JPN PAN KOR
placed AUS C
next position AUS: 4
stands AUS C4
next team pot 4: SRB NGA JPN PAN KOR
placed NGA D
next position NGA: 4
stands NGA D4
next team pot 4: SRB JPN PAN KOR
placed SRB E
next position SRB: 4
stands SRB E4
next team pot 4: JPN PAN KOR
placed KOR F
next position KOR: 4
stands KOR F4
next team pot 4: JPN PAN
placed PAN G
next position PAN: 4
stands PAN G4
next team pot 4: JPN
placed JPN H
next position JPN: 4
stands JPN H4
complete
";

/// The head of 2022.
pub(crate) const WORLD_CUP_2022: &str = r#"{
  "kind": "group",
  "groups": 8,
  "pots": 4,
  "teams": [
    {"code": "QAT", "pot": 1, "tags": ["AFC"]},
    {"code": "BRA", "pot": 1, "tags": ["CONMEBOL"]},
    {"code": "BEL", "pot": 1, "tags": ["UEFA"]},
    {"code": "FRA", "pot": 1, "tags": ["UEFA"]},
    {"code": "ARG", "pot": 1, "tags": ["CONMEBOL"]},
    {"code": "ENG", "pot": 1, "tags": ["UEFA"]},
    {"code": "ESP", "pot": 1, "tags": ["UEFA"]},
    {"code": "POR", "pot": 1, "tags": ["UEFA"]},
    {"code": "MEX", "pot": 2, "tags": ["CONCACAF"]},
    {"code": "NED", "pot": 2, "tags": ["UEFA"]},
    {"code": "DEN", "pot": 2, "tags": ["UEFA"]},
    {"code": "GER", "pot": 2, "tags": ["UEFA"]},
    {"code": "URU", "pot": 2, "tags": ["CONMEBOL"]},
    {"code": "SUI", "pot": 2, "tags": ["UEFA"]},
    {"code": "USA", "pot": 2, "tags": ["CONCACAF"]},
    {"code": "CRO", "pot": 2, "tags": ["UEFA"]},
    {"code": "SEN", "pot": 3, "tags": ["CAF"]},
    {"code": "IRN", "pot": 3, "tags": ["AFC"]},
    {"code": "JPN", "pot": 3, "tags": ["AFC"]},
    {"code": "MAR", "pot": 3, "tags": ["CAF"]},
    {"code": "SRB", "pot": 3, "tags": ["UEFA"]},
    {"code": "POL", "pot": 3, "tags": ["UEFA"]},
    {"code": "KOR", "pot": 3, "tags": ["AFC"]},
    {"code": "TUN", "pot": 3, "tags": ["CAF"]},
    {"code": "CMR", "pot": 4, "tags": ["CAF"]},
    {"code": "CAN", "pot": 4, "tags": ["CONCACAF"]},
    {"code": "ECU", "pot": 4, "tags": ["CONMEBOL"]},
    {"code": "KSA", "pot": 4, "tags": ["AFC"]},
    {"code": "GHA", "pot": 4, "tags": ["CAF"]},
    {"code": "IC1", "pot": 4, "tags": ["AFC", "CONMEBOL"]},
    {"code": "IC2", "pot": 4, "tags": ["CONCACAF", "OFC"]},
    {"code": "EPA", "pot": 4, "tags": ["UEFA"]}
  ],
  "limits": [
    {"tag": "UEFA", "lo": 1, "hi": 2},
    {"tag": "CONMEBOL", "lo": 0, "hi": 1},
    {"tag": "CONCACAF", "lo": 0, "hi": 1},
    {"tag": "CAF", "lo": 0, "hi": 1},
    {"tag": "AFC", "lo": 0, "hi": 1},
    {"tag": "OFC", "lo": 0, "hi": 1}
  ],
  "places": [
    {"code": "QAT", "group": "A", "position": 1}
  ]
}"#;

/// The balls up to pot 3 and the six after them.
pub(crate) const BALLS_2022: &str = r"ball QAT
ball ENG
ball ARG
ball FRA
ball ESP
ball BEL
ball BRA
ball POR
ball NED
ball 2
ball USA
ball 2
ball MEX
ball 2
ball DEN
ball 2
ball GER
ball 2
ball CRO
ball 2
ball SUI
ball 2
ball URU
ball 2
ball SEN
ball 3
ball IRN
ball 3
ball POL
ball 3
ball TUN
ball 3
ball JPN
ball 3
ball MAR
ball 3
ball SRB
ball 3
ball KOR
ball 3
ball ECU
ball 4
ball KSA
ball 4
ball CAN
ball 4
ball CMR
ball 4
ball GHA
ball 4
ball IC2
";

/// The answer text to them.
pub(crate) const ANSWER_2022: &str = r"draw group 32 teams
next team pot 1: QAT BRA BEL FRA ARG ENG ESP POR
placed QAT A
next team pot 1: BRA BEL FRA ARG ENG ESP POR
placed ENG B
next team pot 1: BRA BEL FRA ARG ESP POR
placed ARG C
next team pot 1: BRA BEL FRA ESP POR
placed FRA D
next team pot 1: BRA BEL ESP POR
placed ESP E
next team pot 1: BRA BEL POR
placed BEL F
next team pot 1: BRA POR
placed BRA G
next team pot 1: POR
placed POR H
next team pot 2: MEX NED DEN GER URU SUI USA CRO
placed NED A
next position NED: 2 3 4
stands NED A2
next team pot 2: MEX DEN GER URU SUI USA CRO
placed USA B
next position USA: 2 3 4
stands USA B2
next team pot 2: MEX DEN GER URU SUI CRO
placed MEX C
next position MEX: 2 3 4
stands MEX C2
next team pot 2: DEN GER URU SUI CRO
placed DEN D
next position DEN: 2 3 4
stands DEN D2
next team pot 2: GER URU SUI CRO
placed GER E
next position GER: 2 3 4
stands GER E2
next team pot 2: URU SUI CRO
placed CRO F
next position CRO: 2 3 4
stands CRO F2
next team pot 2: URU SUI
placed SUI G
next position SUI: 2 3 4
stands SUI G2
next team pot 2: URU
placed URU H
next position URU: 2 3 4
stands URU H2
next team pot 3: SEN IRN JPN MAR SRB POL KOR TUN
placed SEN A
next position SEN: 3 4
stands SEN A3
next team pot 3: IRN JPN MAR SRB POL KOR TUN
placed IRN B
next position IRN: 3 4
stands IRN B3
next team pot 3: JPN MAR SRB POL KOR TUN
placed POL C
next position POL: 3 4
stands POL C3
next team pot 3: JPN MAR SRB KOR TUN
placed TUN D
next position TUN: 3 4
stands TUN D3
next team pot 3: JPN MAR SRB KOR
placed JPN E
next position JPN: 3 4
stands JPN E3
next team pot 3: MAR SRB KOR
placed MAR F
next position MAR: 3 4
stands MAR F3
next team pot 3: SRB KOR
placed SRB G
next position SRB: 3 4
stands SRB G3
next team pot 3: KOR
placed KOR H
next position KOR: 3 4
stands KOR H3
next team pot 4: CMR CAN ECU KSA GHA IC1 IC2 EPA
placed ECU A
next position ECU: 4
stands ECU A4
next team pot 4: CMR CAN KSA GHA IC1 IC2 EPA
placed KSA C
next position KSA: 4
stands KSA C4
next team pot 4: CMR CAN GHA IC1 IC2 EPA
placed CAN D
next position CAN: 4
stands CAN D4
next team pot 4: CMR GHA IC1 IC2 EPA
placed CMR B
next position CMR: 4
stands CMR B4
next team pot 4: GHA IC1 IC2 EPA
placed GHA E
next position GHA: 4
stands GHA E4
next team pot 4: IC1 IC2 EPA
placed IC2 G
next position IC2: 4
";
