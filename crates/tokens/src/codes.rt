//! The codes of TeX's primitives: the place of each name in the two tables of names (`primitive_name`).
ghost use Rattle.std.specs.Prelude.{◌≡◌};
ghost use Rattle.tokens.specs.Codes.{input_code, endinput_code, expandafter_code, noexpand_code, csname_code, the_code, number_code, romannumeral_code, string_code, meaning_code, fontname_code, jobname_code, topmark_code, firstmark_code, botmark_code, splitfirstmark_code, splitbotmark_code, if_code, ifcat_code, ifnum_code, ifdim_code, ifodd_code, ifvmode_code, ifhmode_code, ifmmode_code, ifinner_code, ifvoid_code, ifhbox_code, ifvbox_code, ifx_code, ifeof_code, iftrue_code, iffalse_code, ifcase_code, else_code, or_code, fi_code, pretolerance_code, tolerance_code, linepenalty_code, hyphenpenalty_code, exhyphenpenalty_code, clubpenalty_code, widowpenalty_code, displaywidowpenalty_code, brokenpenalty_code, binoppenalty_code, relpenalty_code, predisplaypenalty_code, postdisplaypenalty_code, interlinepenalty_code, doublehyphendemerits_code, finalhyphendemerits_code, adjdemerits_code, mag_code, delimiterfactor_code, looseness_code, time_code, day_code, month_code, year_code, showboxbreadth_code, showboxdepth_code, hbadness_code, vbadness_code, pausing_code, tracingonline_code, tracingmacros_code, tracingstats_code, tracingparagraphs_code, tracingpages_code, tracingoutput_code, tracinglostchars_code, tracingcommands_code, tracingrestores_code, uchyph_code, outputpenalty_code, maxdeadcycles_code, hangafter_code, floatingpenalty_code, globaldefs_code, fam_code, escapechar_code, defaulthyphenchar_code, defaultskewchar_code, endlinechar_code, newlinechar_code, language_code, lefthyphenmin_code, righthyphenmin_code, holdinginserts_code, errorcontextlines_code, parindent_code, mathsurround_code, lineskiplimit_code, hsize_code, vsize_code, maxdepth_code, splitmaxdepth_code, boxmaxdepth_code, hfuzz_code, vfuzz_code, delimitershortfall_code, nulldelimiterspace_code, scriptspace_code, predisplaysize_code, displaywidth_code, displayindent_code, overfullrule_code, hangindent_code, hoffset_code, voffset_code, emergencystretch_code, lineskip_code, baselineskip_code, parskip_code, abovedisplayskip_code, belowdisplayskip_code, abovedisplayshortskip_code, belowdisplayshortskip_code, leftskip_code, rightskip_code, topskip_code, splittopskip_code, tabskip_code, spaceskip_code, xspaceskip_code, parfillskip_code, thinmuskip_code, medmuskip_code, thickmuskip_code, output_code, everypar_code, everymath_code, everydisplay_code, everyhbox_code, everyvbox_code, everyjob_code, everycr_code, errhelp_code, count_code, dimen_code, skip_code, muskip_code, toks_code, wd_code, ht_code, dp_code, catcode_code, lccode_code, uccode_code, sfcode_code, mathcode_code, delcode_code, fontdimen_code, hyphenchar_code, skewchar_code, textfont_code, scriptfont_code, scriptscriptfont_code, parshape_code, prevdepth_code, spacefactor_code, prevgraf_code, deadcycles_code, insertpenalties_code, pagegoal_code, pagetotal_code, pagestretch_code, pagefilstretch_code, pagefillstretch_code, pagefilllstretch_code, pageshrink_code, pagedepth_code, lastpenalty_code, lastkern_code, lastskip_code, inputlineno_code, badness_code, def_code, gdef_code, edef_code, xdef_code, long_code, outer_code, global_code, let_code, futurelet_code, chardef_code, mathchardef_code, countdef_code, dimendef_code, skipdef_code, muskipdef_code, toksdef_code, advance_code, multiply_code, divide_code, setbox_code, font_code, nullfont_code, read_code, batchmode_code, nonstopmode_code, scrollmode_code, errorstopmode_code, afterassignment_code, aftergroup_code, uppercase_code, lowercase_code, relax_code, begingroup_code, endgroup_code, endcsname_code, par_code, end_code, ignorespaces_code, message_code, errmessage_code, show_code, showthe_code, openin_code, closein_code, openout_code, closeout_code, write_code, special_code, immediate_code, shipout_code, mark_code, box_code, copy_code, lastbox_code, vsplit_code, hbox_code, vbox_code, vtop_code, unhbox_code, unhcopy_code, unvbox_code, unvcopy_code, raise_code, lower_code, moveleft_code, moveright_code, leaders_code, cleaders_code, xleaders_code, hrule_code, vrule_code, hskip_code, hfil_code, hfill_code, hss_code, hfilneg_code, vskip_code, vfil_code, vfill_code, vss_code, vfilneg_code, kern_code, penalty_code, unpenalty_code, unkern_code, unskip_code, insert_code, vadjust_code, indent_code, noindent_code, char_code, accent_code, discretionary_code, discretionary_hyphen_code, italic_correction_code, noboundary_code, control_space_code, halign_code, valign_code, noalign_code, omit_code, span_code, cr_code, crcr_code, patterns_code, hyphenation_code, setlanguage_code, dump_code, showbox_code, showlists_code, mathchar_code, mathaccent_code, delimiter_code, radical_code, mskip_code, mkern_code, mathord_code, mathop_code, mathbin_code, mathrel_code, mathopen_code, mathclose_code, mathpunct_code, mathinner_code, underline_code, overline_code, mathchoice_code, displaystyle_code, textstyle_code, scriptstyle_code, scriptscriptstyle_code, left_code, right_code, over_code, atop_code, above_code, overwithdelims_code, atopwithdelims_code, abovewithdelims_code, limits_code, nolimits_code, displaylimits_code, nonscript_code, vcenter_code, eqno_code, leqno_code, unexpanded_code, detokenize_code, scantokens_code, unless_code, ifdefined_code, ifcsname_code, iffontchar_code, topmarks_code, firstmarks_code, botmarks_code, splitfirstmarks_code, splitbotmarks_code, etex_revision_code, numexpr_code, dimexpr_code, glueexpr_code, muexpr_code, gluestretch_code, glueshrink_code, gluestretchorder_code, glueshrinkorder_code, gluetomu_code, mutoglue_code, fontcharwd_code, fontcharht_code, fontchardp_code, fontcharic_code, parshapelength_code, parshapeindent_code, parshapedimen_code, currentgrouplevel_code, currentgrouptype_code, currentiflevel_code, currentiftype_code, currentifbranch_code, lastnodetype_code, interactionmode_code, etex_version_code, interlinepenalties_code, clubpenalties_code, widowpenalties_code, displaywidowpenalties_code, tracingassigns_code, tracinggroups_code, tracingifs_code, tracingscantokens_code, tracingnesting_code, savingvdiscards_code, savinghyphcodes_code, everyeof_code, protected_code, marks_code, readline_code, showtokens_code, pagediscards_code, splitdiscards_code, middle_code, predisplaydirection_code, lastlinefit_code, texxet_state_code, begin_l_code, end_l_code, begin_r_code, end_r_code, showgroups_code, showifs_code};

// Expandable commands and conditions.
pub const INPUT: u16 = 0;

pub const ENDINPUT: u16 = 1;

pub const EXPANDAFTER: u16 = 2;

pub const NOEXPAND: u16 = 3;

pub const CSNAME: u16 = 4;

pub const THE: u16 = 5;

pub const NUMBER: u16 = 6;

pub const ROMANNUMERAL: u16 = 7;

pub const STRING: u16 = 8;

pub const MEANING: u16 = 9;

pub const FONTNAME: u16 = 10;

pub const JOBNAME: u16 = 11;

pub const TOPMARK: u16 = 12;

pub const FIRSTMARK: u16 = 13;

pub const BOTMARK: u16 = 14;

pub const SPLITFIRSTMARK: u16 = 15;

pub const SPLITBOTMARK: u16 = 16;

pub const IF: u16 = 17;

pub const IFCAT: u16 = 18;

pub const IFNUM: u16 = 19;

pub const IFDIM: u16 = 20;

pub const IFODD: u16 = 21;

pub const IFVMODE: u16 = 22;

pub const IFHMODE: u16 = 23;

pub const IFMMODE: u16 = 24;

pub const IFINNER: u16 = 25;

pub const IFVOID: u16 = 26;

pub const IFHBOX: u16 = 27;

pub const IFVBOX: u16 = 28;

pub const IFX: u16 = 29;

pub const IFEOF: u16 = 30;

pub const IFTRUE: u16 = 31;

pub const IFFALSE: u16 = 32;

pub const IFCASE: u16 = 33;

pub const ELSE: u16 = 34;

pub const OR: u16 = 35;

pub const FI: u16 = 36;

// Integer parameters.
pub const PRETOLERANCE: u16 = 37;

pub const TOLERANCE: u16 = 38;

pub const LINEPENALTY: u16 = 39;

pub const HYPHENPENALTY: u16 = 40;

pub const EXHYPHENPENALTY: u16 = 41;

pub const CLUBPENALTY: u16 = 42;

pub const WIDOWPENALTY: u16 = 43;

pub const DISPLAYWIDOWPENALTY: u16 = 44;

pub const BROKENPENALTY: u16 = 45;

pub const BINOPPENALTY: u16 = 46;

pub const RELPENALTY: u16 = 47;

pub const PREDISPLAYPENALTY: u16 = 48;

pub const POSTDISPLAYPENALTY: u16 = 49;

pub const INTERLINEPENALTY: u16 = 50;

pub const DOUBLEHYPHENDEMERITS: u16 = 51;

pub const FINALHYPHENDEMERITS: u16 = 52;

pub const ADJDEMERITS: u16 = 53;

pub const MAG: u16 = 54;

pub const DELIMITERFACTOR: u16 = 55;

pub const LOOSENESS: u16 = 56;

pub const TIME: u16 = 57;

pub const DAY: u16 = 58;

pub const MONTH: u16 = 59;

pub const YEAR: u16 = 60;

pub const SHOWBOXBREADTH: u16 = 61;

pub const SHOWBOXDEPTH: u16 = 62;

pub const HBADNESS: u16 = 63;

pub const VBADNESS: u16 = 64;

pub const PAUSING: u16 = 65;

pub const TRACINGONLINE: u16 = 66;

pub const TRACINGMACROS: u16 = 67;

pub const TRACINGSTATS: u16 = 68;

pub const TRACINGPARAGRAPHS: u16 = 69;

pub const TRACINGPAGES: u16 = 70;

pub const TRACINGOUTPUT: u16 = 71;

pub const TRACINGLOSTCHARS: u16 = 72;

pub const TRACINGCOMMANDS: u16 = 73;

pub const TRACINGRESTORES: u16 = 74;

pub const UCHYPH: u16 = 75;

pub const OUTPUTPENALTY: u16 = 76;

pub const MAXDEADCYCLES: u16 = 77;

pub const HANGAFTER: u16 = 78;

pub const FLOATINGPENALTY: u16 = 79;

pub const GLOBALDEFS: u16 = 80;

pub const FAM: u16 = 81;

pub const ESCAPECHAR: u16 = 82;

pub const DEFAULTHYPHENCHAR: u16 = 83;

pub const DEFAULTSKEWCHAR: u16 = 84;

pub const ENDLINECHAR: u16 = 85;

pub const NEWLINECHAR: u16 = 86;

pub const LANGUAGE: u16 = 87;

pub const LEFTHYPHENMIN: u16 = 88;

pub const RIGHTHYPHENMIN: u16 = 89;

pub const HOLDINGINSERTS: u16 = 90;

pub const ERRORCONTEXTLINES: u16 = 91;

// Dimension parameters.
pub const PARINDENT: u16 = 92;

pub const MATHSURROUND: u16 = 93;

pub const LINESKIPLIMIT: u16 = 94;

pub const HSIZE: u16 = 95;

pub const VSIZE: u16 = 96;

pub const MAXDEPTH: u16 = 97;

pub const SPLITMAXDEPTH: u16 = 98;

pub const BOXMAXDEPTH: u16 = 99;

pub const HFUZZ: u16 = 100;

pub const VFUZZ: u16 = 101;

pub const DELIMITERSHORTFALL: u16 = 102;

pub const NULLDELIMITERSPACE: u16 = 103;

pub const SCRIPTSPACE: u16 = 104;

pub const PREDISPLAYSIZE: u16 = 105;

pub const DISPLAYWIDTH: u16 = 106;

pub const DISPLAYINDENT: u16 = 107;

pub const OVERFULLRULE: u16 = 108;

pub const HANGINDENT: u16 = 109;

pub const HOFFSET: u16 = 110;

pub const VOFFSET: u16 = 111;

pub const EMERGENCYSTRETCH: u16 = 112;

// Glue parameters.
pub const LINESKIP: u16 = 113;

pub const BASELINESKIP: u16 = 114;

pub const PARSKIP: u16 = 115;

pub const ABOVEDISPLAYSKIP: u16 = 116;

pub const BELOWDISPLAYSKIP: u16 = 117;

pub const ABOVEDISPLAYSHORTSKIP: u16 = 118;

pub const BELOWDISPLAYSHORTSKIP: u16 = 119;

pub const LEFTSKIP: u16 = 120;

pub const RIGHTSKIP: u16 = 121;

pub const TOPSKIP: u16 = 122;

pub const SPLITTOPSKIP: u16 = 123;

pub const TABSKIP: u16 = 124;

pub const SPACESKIP: u16 = 125;

pub const XSPACESKIP: u16 = 126;

pub const PARFILLSKIP: u16 = 127;

pub const THINMUSKIP: u16 = 128;

pub const MEDMUSKIP: u16 = 129;

pub const THICKMUSKIP: u16 = 130;

// Token parameters.
pub const OUTPUT: u16 = 131;

pub const EVERYPAR: u16 = 132;

pub const EVERYMATH: u16 = 133;

pub const EVERYDISPLAY: u16 = 134;

pub const EVERYHBOX: u16 = 135;

pub const EVERYVBOX: u16 = 136;

pub const EVERYJOB: u16 = 137;

pub const EVERYCR: u16 = 138;

pub const ERRHELP: u16 = 139;

// Other quantities.
pub const COUNT: u16 = 140;

pub const DIMEN: u16 = 141;

pub const SKIP: u16 = 142;

pub const MUSKIP: u16 = 143;

pub const TOKS: u16 = 144;

pub const WD: u16 = 145;

pub const HT: u16 = 146;

pub const DP: u16 = 147;

pub const CATCODE: u16 = 148;

pub const LCCODE: u16 = 149;

pub const UCCODE: u16 = 150;

pub const SFCODE: u16 = 151;

pub const MATHCODE: u16 = 152;

pub const DELCODE: u16 = 153;

pub const FONTDIMEN: u16 = 154;

pub const HYPHENCHAR: u16 = 155;

pub const SKEWCHAR: u16 = 156;

pub const TEXTFONT: u16 = 157;

pub const SCRIPTFONT: u16 = 158;

pub const SCRIPTSCRIPTFONT: u16 = 159;

pub const PARSHAPE: u16 = 160;

pub const PREVDEPTH: u16 = 161;

pub const SPACEFACTOR: u16 = 162;

pub const PREVGRAF: u16 = 163;

pub const DEADCYCLES: u16 = 164;

pub const INSERTPENALTIES: u16 = 165;

pub const PAGEGOAL: u16 = 166;

pub const PAGETOTAL: u16 = 167;

pub const PAGESTRETCH: u16 = 168;

pub const PAGEFILSTRETCH: u16 = 169;

pub const PAGEFILLSTRETCH: u16 = 170;

pub const PAGEFILLLSTRETCH: u16 = 171;

pub const PAGESHRINK: u16 = 172;

pub const PAGEDEPTH: u16 = 173;

pub const LASTPENALTY: u16 = 174;

pub const LASTKERN: u16 = 175;

pub const LASTSKIP: u16 = 176;

pub const INPUTLINENO: u16 = 177;

pub const BADNESS: u16 = 178;

// Definitions and assignments.
pub const DEF: u16 = 179;

pub const GDEF: u16 = 180;

pub const EDEF: u16 = 181;

pub const XDEF: u16 = 182;

pub const LONG: u16 = 183;

pub const OUTER: u16 = 184;

pub const GLOBAL: u16 = 185;

pub const LET: u16 = 186;

pub const FUTURELET: u16 = 187;

pub const CHARDEF: u16 = 188;

pub const MATHCHARDEF: u16 = 189;

pub const COUNTDEF: u16 = 190;

pub const DIMENDEF: u16 = 191;

pub const SKIPDEF: u16 = 192;

pub const MUSKIPDEF: u16 = 193;

pub const TOKSDEF: u16 = 194;

pub const ADVANCE: u16 = 195;

pub const MULTIPLY: u16 = 196;

pub const DIVIDE: u16 = 197;

pub const SETBOX: u16 = 198;

pub const FONT: u16 = 199;

pub const NULLFONT: u16 = 200;

pub const READ: u16 = 201;

pub const BATCHMODE: u16 = 202;

pub const NONSTOPMODE: u16 = 203;

pub const SCROLLMODE: u16 = 204;

pub const ERRORSTOPMODE: u16 = 205;

pub const AFTERASSIGNMENT: u16 = 206;

pub const AFTERGROUP: u16 = 207;

pub const UPPERCASE: u16 = 208;

pub const LOWERCASE: u16 = 209;

// Groups and rest.
pub const RELAX: u16 = 210;

pub const BEGINGROUP: u16 = 211;

pub const ENDGROUP: u16 = 212;

pub const ENDCSNAME: u16 = 213;

pub const PAR: u16 = 214;

pub const END: u16 = 215;

pub const IGNORESPACES: u16 = 216;

pub const MESSAGE: u16 = 217;

pub const ERRMESSAGE: u16 = 218;

pub const SHOW: u16 = 219;

pub const SHOWTHE: u16 = 220;

pub const OPENIN: u16 = 221;

pub const CLOSEIN: u16 = 222;

pub const OPENOUT: u16 = 223;

pub const CLOSEOUT: u16 = 224;

pub const WRITE: u16 = 225;

pub const SPECIAL: u16 = 226;

pub const IMMEDIATE: u16 = 227;

pub const SHIPOUT: u16 = 228;

pub const MARK: u16 = 229;

// Boxes and lists.
pub const BOX: u16 = 230;

pub const COPY: u16 = 231;

pub const LASTBOX: u16 = 232;

pub const VSPLIT: u16 = 233;

pub const HBOX: u16 = 234;

pub const VBOX: u16 = 235;

pub const VTOP: u16 = 236;

pub const UNHBOX: u16 = 237;

pub const UNHCOPY: u16 = 238;

pub const UNVBOX: u16 = 239;

pub const UNVCOPY: u16 = 240;

pub const RAISE: u16 = 241;

pub const LOWER: u16 = 242;

pub const MOVELEFT: u16 = 243;

pub const MOVERIGHT: u16 = 244;

pub const LEADERS: u16 = 245;

pub const CLEADERS: u16 = 246;

pub const XLEADERS: u16 = 247;

pub const HRULE: u16 = 248;

pub const VRULE: u16 = 249;

pub const HSKIP: u16 = 250;

pub const HFIL: u16 = 251;

pub const HFILL: u16 = 252;

pub const HSS: u16 = 253;

pub const HFILNEG: u16 = 254;

pub const VSKIP: u16 = 255;

pub const VFIL: u16 = 256;

pub const VFILL: u16 = 257;

pub const VSS: u16 = 258;

pub const VFILNEG: u16 = 259;

pub const KERN: u16 = 260;

pub const PENALTY: u16 = 261;

pub const UNPENALTY: u16 = 262;

pub const UNKERN: u16 = 263;

pub const UNSKIP: u16 = 264;

pub const INSERT: u16 = 265;

pub const VADJUST: u16 = 266;

pub const INDENT: u16 = 267;

pub const NOINDENT: u16 = 268;

pub const CHAR: u16 = 269;

pub const ACCENT: u16 = 270;

pub const DISCRETIONARY: u16 = 271;

pub const DISCRETIONARY_HYPHEN: u16 = 272;

pub const ITALIC_CORRECTION: u16 = 273;

pub const NOBOUNDARY: u16 = 274;

pub const CONTROL_SPACE: u16 = 275;

// Commands that this TeX leaves out.
pub const HALIGN: u16 = 276;

pub const VALIGN: u16 = 277;

pub const NOALIGN: u16 = 278;

pub const OMIT: u16 = 279;

pub const SPAN: u16 = 280;

pub const CR: u16 = 281;

pub const CRCR: u16 = 282;

pub const PATTERNS: u16 = 283;

pub const HYPHENATION: u16 = 284;

pub const SETLANGUAGE: u16 = 285;

pub const DUMP: u16 = 286;

pub const SHOWBOX: u16 = 287;

pub const SHOWLISTS: u16 = 288;

pub const MATHCHAR: u16 = 289;

pub const MATHACCENT: u16 = 290;

pub const DELIMITER: u16 = 291;

pub const RADICAL: u16 = 292;

pub const MSKIP: u16 = 293;

pub const MKERN: u16 = 294;

pub const MATHORD: u16 = 295;

pub const MATHOP: u16 = 296;

pub const MATHBIN: u16 = 297;

pub const MATHREL: u16 = 298;

pub const MATHOPEN: u16 = 299;

pub const MATHCLOSE: u16 = 300;

pub const MATHPUNCT: u16 = 301;

pub const MATHINNER: u16 = 302;

pub const UNDERLINE: u16 = 303;

pub const OVERLINE: u16 = 304;

pub const MATHCHOICE: u16 = 305;

pub const DISPLAYSTYLE: u16 = 306;

pub const TEXTSTYLE: u16 = 307;

pub const SCRIPTSTYLE: u16 = 308;

pub const SCRIPTSCRIPTSTYLE: u16 = 309;

pub const LEFT: u16 = 310;

pub const RIGHT: u16 = 311;

pub const OVER: u16 = 312;

pub const ATOP: u16 = 313;

pub const ABOVE: u16 = 314;

pub const OVERWITHDELIMS: u16 = 315;

pub const ATOPWITHDELIMS: u16 = 316;

pub const ABOVEWITHDELIMS: u16 = 317;

pub const LIMITS: u16 = 318;

pub const NOLIMITS: u16 = 319;

pub const DISPLAYLIMITS: u16 = 320;

pub const NONSCRIPT: u16 = 321;

pub const VCENTER: u16 = 322;

pub const EQNO: u16 = 323;

pub const LEQNO: u16 = 324;

// Expandable commands and conditions of e-TeX.
pub const UNEXPANDED: u16 = 325;

pub const DETOKENIZE: u16 = 326;

pub const SCANTOKENS: u16 = 327;

pub const UNLESS: u16 = 328;

pub const IFDEFINED: u16 = 329;

pub const IFCSNAME: u16 = 330;

pub const IFFONTCHAR: u16 = 331;

pub const TOPMARKS: u16 = 332;

pub const FIRSTMARKS: u16 = 333;

pub const BOTMARKS: u16 = 334;

pub const SPLITFIRSTMARKS: u16 = 335;

pub const SPLITBOTMARKS: u16 = 336;

pub const ETEX_REVISION: u16 = 337;

// Quantities, arrays and parameters of e-TeX.
pub const NUMEXPR: u16 = 338;

pub const DIMEXPR: u16 = 339;

pub const GLUEEXPR: u16 = 340;

pub const MUEXPR: u16 = 341;

pub const GLUESTRETCH: u16 = 342;

pub const GLUESHRINK: u16 = 343;

pub const GLUESTRETCHORDER: u16 = 344;

pub const GLUESHRINKORDER: u16 = 345;

pub const GLUETOMU: u16 = 346;

pub const MUTOGLUE: u16 = 347;

pub const FONTCHARWD: u16 = 348;

pub const FONTCHARHT: u16 = 349;

pub const FONTCHARDP: u16 = 350;

pub const FONTCHARIC: u16 = 351;

pub const PARSHAPELENGTH: u16 = 352;

pub const PARSHAPEINDENT: u16 = 353;

pub const PARSHAPEDIMEN: u16 = 354;

pub const CURRENTGROUPLEVEL: u16 = 355;

pub const CURRENTGROUPTYPE: u16 = 356;

pub const CURRENTIFLEVEL: u16 = 357;

pub const CURRENTIFTYPE: u16 = 358;

pub const CURRENTIFBRANCH: u16 = 359;

pub const LASTNODETYPE: u16 = 360;

pub const INTERACTIONMODE: u16 = 361;

pub const ETEX_VERSION: u16 = 362;

pub const INTERLINEPENALTIES: u16 = 363;

pub const CLUBPENALTIES: u16 = 364;

pub const WIDOWPENALTIES: u16 = 365;

pub const DISPLAYWIDOWPENALTIES: u16 = 366;

pub const TRACINGASSIGNS: u16 = 367;

pub const TRACINGGROUPS: u16 = 368;

pub const TRACINGIFS: u16 = 369;

pub const TRACINGSCANTOKENS: u16 = 370;

pub const TRACINGNESTING: u16 = 371;

pub const SAVINGVDISCARDS: u16 = 372;

pub const SAVINGHYPHCODES: u16 = 373;

pub const EVERYEOF: u16 = 374;

// Other commands of e-TeX.
pub const PROTECTED: u16 = 375;

pub const MARKS: u16 = 376;

pub const READLINE: u16 = 377;

pub const SHOWTOKENS: u16 = 378;

pub const PAGEDISCARDS: u16 = 379;

pub const SPLITDISCARDS: u16 = 380;

// Commands of e-TeX that this TeX leaves out.
pub const MIDDLE: u16 = 381;

pub const PREDISPLAYDIRECTION: u16 = 382;

pub const LASTLINEFIT: u16 = 383;

pub const TEXXET_STATE: u16 = 384;

pub const BEGIN_L: u16 = 385;

pub const END_L: u16 = 386;

pub const BEGIN_R: u16 = 387;

pub const END_R: u16 = 388;

pub const SHOWGROUPS: u16 = 389;

pub const SHOWIFS: u16 = 390;

/// Each constant is the code that the definitions write out beside its name.
pub fn constants_are_codes()
    ensures expandable { (INPUT ≡ input_code) × (ENDINPUT ≡ endinput_code) × (EXPANDAFTER ≡ expandafter_code)
        × (NOEXPAND ≡ noexpand_code) × (CSNAME ≡ csname_code) × (THE ≡ the_code) × (NUMBER ≡ number_code)
        × (ROMANNUMERAL ≡ romannumeral_code) × (STRING ≡ string_code) × (MEANING ≡ meaning_code)
        × (FONTNAME ≡ fontname_code) × (JOBNAME ≡ jobname_code) × (TOPMARK ≡ topmark_code)
        × (FIRSTMARK ≡ firstmark_code) × (BOTMARK ≡ botmark_code) × (SPLITFIRSTMARK ≡ splitfirstmark_code)
        × (SPLITBOTMARK ≡ splitbotmark_code) × (IF ≡ if_code) × (IFCAT ≡ ifcat_code) × (IFNUM ≡ ifnum_code)
        × (IFDIM ≡ ifdim_code) × (IFODD ≡ ifodd_code) × (IFVMODE ≡ ifvmode_code) × (IFHMODE ≡ ifhmode_code)
        × (IFMMODE ≡ ifmmode_code) × (IFINNER ≡ ifinner_code) × (IFVOID ≡ ifvoid_code)
        × (IFHBOX ≡ ifhbox_code) × (IFVBOX ≡ ifvbox_code) × (IFX ≡ ifx_code) × (IFEOF ≡ ifeof_code)
        × (IFTRUE ≡ iftrue_code) × (IFFALSE ≡ iffalse_code) × (IFCASE ≡ ifcase_code) × (ELSE ≡ else_code)
        × (OR ≡ or_code) × (FI ≡ fi_code) }
    ensures integer_parameter { (PRETOLERANCE ≡ pretolerance_code) × (TOLERANCE ≡ tolerance_code) × (LINEPENALTY ≡ linepenalty_code)
        × (HYPHENPENALTY ≡ hyphenpenalty_code) × (EXHYPHENPENALTY ≡ exhyphenpenalty_code)
        × (CLUBPENALTY ≡ clubpenalty_code) × (WIDOWPENALTY ≡ widowpenalty_code)
        × (DISPLAYWIDOWPENALTY ≡ displaywidowpenalty_code) × (BROKENPENALTY ≡ brokenpenalty_code)
        × (BINOPPENALTY ≡ binoppenalty_code) × (RELPENALTY ≡ relpenalty_code)
        × (PREDISPLAYPENALTY ≡ predisplaypenalty_code) × (POSTDISPLAYPENALTY ≡ postdisplaypenalty_code)
        × (INTERLINEPENALTY ≡ interlinepenalty_code) × (DOUBLEHYPHENDEMERITS ≡ doublehyphendemerits_code)
        × (FINALHYPHENDEMERITS ≡ finalhyphendemerits_code) × (ADJDEMERITS ≡ adjdemerits_code)
        × (MAG ≡ mag_code) × (DELIMITERFACTOR ≡ delimiterfactor_code) × (LOOSENESS ≡ looseness_code)
        × (TIME ≡ time_code) × (DAY ≡ day_code) × (MONTH ≡ month_code) × (YEAR ≡ year_code)
        × (SHOWBOXBREADTH ≡ showboxbreadth_code) × (SHOWBOXDEPTH ≡ showboxdepth_code)
        × (HBADNESS ≡ hbadness_code) × (VBADNESS ≡ vbadness_code) × (PAUSING ≡ pausing_code)
        × (TRACINGONLINE ≡ tracingonline_code) × (TRACINGMACROS ≡ tracingmacros_code)
        × (TRACINGSTATS ≡ tracingstats_code) × (TRACINGPARAGRAPHS ≡ tracingparagraphs_code)
        × (TRACINGPAGES ≡ tracingpages_code) × (TRACINGOUTPUT ≡ tracingoutput_code)
        × (TRACINGLOSTCHARS ≡ tracinglostchars_code) × (TRACINGCOMMANDS ≡ tracingcommands_code)
        × (TRACINGRESTORES ≡ tracingrestores_code) × (UCHYPH ≡ uchyph_code)
        × (OUTPUTPENALTY ≡ outputpenalty_code) × (MAXDEADCYCLES ≡ maxdeadcycles_code)
        × (HANGAFTER ≡ hangafter_code) × (FLOATINGPENALTY ≡ floatingpenalty_code)
        × (GLOBALDEFS ≡ globaldefs_code) × (FAM ≡ fam_code) × (ESCAPECHAR ≡ escapechar_code)
        × (DEFAULTHYPHENCHAR ≡ defaulthyphenchar_code) × (DEFAULTSKEWCHAR ≡ defaultskewchar_code)
        × (ENDLINECHAR ≡ endlinechar_code) × (NEWLINECHAR ≡ newlinechar_code) × (LANGUAGE ≡ language_code)
        × (LEFTHYPHENMIN ≡ lefthyphenmin_code) × (RIGHTHYPHENMIN ≡ righthyphenmin_code)
        × (HOLDINGINSERTS ≡ holdinginserts_code) × (ERRORCONTEXTLINES ≡ errorcontextlines_code) }
    ensures dimension_parameter { (PARINDENT ≡ parindent_code) × (MATHSURROUND ≡ mathsurround_code)
        × (LINESKIPLIMIT ≡ lineskiplimit_code) × (HSIZE ≡ hsize_code) × (VSIZE ≡ vsize_code)
        × (MAXDEPTH ≡ maxdepth_code) × (SPLITMAXDEPTH ≡ splitmaxdepth_code) × (BOXMAXDEPTH ≡ boxmaxdepth_code)
        × (HFUZZ ≡ hfuzz_code) × (VFUZZ ≡ vfuzz_code) × (DELIMITERSHORTFALL ≡ delimitershortfall_code)
        × (NULLDELIMITERSPACE ≡ nulldelimiterspace_code) × (SCRIPTSPACE ≡ scriptspace_code)
        × (PREDISPLAYSIZE ≡ predisplaysize_code) × (DISPLAYWIDTH ≡ displaywidth_code)
        × (DISPLAYINDENT ≡ displayindent_code) × (OVERFULLRULE ≡ overfullrule_code)
        × (HANGINDENT ≡ hangindent_code) × (HOFFSET ≡ hoffset_code) × (VOFFSET ≡ voffset_code)
        × (EMERGENCYSTRETCH ≡ emergencystretch_code) }
    ensures glue_parameter { (LINESKIP ≡ lineskip_code) × (BASELINESKIP ≡ baselineskip_code) × (PARSKIP ≡ parskip_code)
        × (ABOVEDISPLAYSKIP ≡ abovedisplayskip_code) × (BELOWDISPLAYSKIP ≡ belowdisplayskip_code)
        × (ABOVEDISPLAYSHORTSKIP ≡ abovedisplayshortskip_code)
        × (BELOWDISPLAYSHORTSKIP ≡ belowdisplayshortskip_code) × (LEFTSKIP ≡ leftskip_code)
        × (RIGHTSKIP ≡ rightskip_code) × (TOPSKIP ≡ topskip_code) × (SPLITTOPSKIP ≡ splittopskip_code)
        × (TABSKIP ≡ tabskip_code) × (SPACESKIP ≡ spaceskip_code) × (XSPACESKIP ≡ xspaceskip_code)
        × (PARFILLSKIP ≡ parfillskip_code) × (THINMUSKIP ≡ thinmuskip_code) × (MEDMUSKIP ≡ medmuskip_code)
        × (THICKMUSKIP ≡ thickmuskip_code) }
    ensures token_parameter { (OUTPUT ≡ output_code) × (EVERYPAR ≡ everypar_code) × (EVERYMATH ≡ everymath_code)
        × (EVERYDISPLAY ≡ everydisplay_code) × (EVERYHBOX ≡ everyhbox_code) × (EVERYVBOX ≡ everyvbox_code)
        × (EVERYJOB ≡ everyjob_code) × (EVERYCR ≡ everycr_code) × (ERRHELP ≡ errhelp_code) }
    ensures quantity { (COUNT ≡ count_code) × (DIMEN ≡ dimen_code) × (SKIP ≡ skip_code) × (MUSKIP ≡ muskip_code)
        × (TOKS ≡ toks_code) × (WD ≡ wd_code) × (HT ≡ ht_code) × (DP ≡ dp_code) × (CATCODE ≡ catcode_code)
        × (LCCODE ≡ lccode_code) × (UCCODE ≡ uccode_code) × (SFCODE ≡ sfcode_code)
        × (MATHCODE ≡ mathcode_code) × (DELCODE ≡ delcode_code) × (FONTDIMEN ≡ fontdimen_code)
        × (HYPHENCHAR ≡ hyphenchar_code) × (SKEWCHAR ≡ skewchar_code) × (TEXTFONT ≡ textfont_code)
        × (SCRIPTFONT ≡ scriptfont_code) × (SCRIPTSCRIPTFONT ≡ scriptscriptfont_code)
        × (PARSHAPE ≡ parshape_code) × (PREVDEPTH ≡ prevdepth_code) × (SPACEFACTOR ≡ spacefactor_code)
        × (PREVGRAF ≡ prevgraf_code) × (DEADCYCLES ≡ deadcycles_code)
        × (INSERTPENALTIES ≡ insertpenalties_code) × (PAGEGOAL ≡ pagegoal_code) × (PAGETOTAL ≡ pagetotal_code)
        × (PAGESTRETCH ≡ pagestretch_code) × (PAGEFILSTRETCH ≡ pagefilstretch_code)
        × (PAGEFILLSTRETCH ≡ pagefillstretch_code) × (PAGEFILLLSTRETCH ≡ pagefilllstretch_code)
        × (PAGESHRINK ≡ pageshrink_code) × (PAGEDEPTH ≡ pagedepth_code) × (LASTPENALTY ≡ lastpenalty_code)
        × (LASTKERN ≡ lastkern_code) × (LASTSKIP ≡ lastskip_code) × (INPUTLINENO ≡ inputlineno_code)
        × (BADNESS ≡ badness_code) }
    ensures assignment { (DEF ≡ def_code) × (GDEF ≡ gdef_code) × (EDEF ≡ edef_code) × (XDEF ≡ xdef_code) × (LONG ≡ long_code)
        × (OUTER ≡ outer_code) × (GLOBAL ≡ global_code) × (LET ≡ let_code) × (FUTURELET ≡ futurelet_code)
        × (CHARDEF ≡ chardef_code) × (MATHCHARDEF ≡ mathchardef_code) × (COUNTDEF ≡ countdef_code)
        × (DIMENDEF ≡ dimendef_code) × (SKIPDEF ≡ skipdef_code) × (MUSKIPDEF ≡ muskipdef_code)
        × (TOKSDEF ≡ toksdef_code) × (ADVANCE ≡ advance_code) × (MULTIPLY ≡ multiply_code)
        × (DIVIDE ≡ divide_code) × (SETBOX ≡ setbox_code) × (FONT ≡ font_code) × (NULLFONT ≡ nullfont_code)
        × (READ ≡ read_code) × (BATCHMODE ≡ batchmode_code) × (NONSTOPMODE ≡ nonstopmode_code)
        × (SCROLLMODE ≡ scrollmode_code) × (ERRORSTOPMODE ≡ errorstopmode_code)
        × (AFTERASSIGNMENT ≡ afterassignment_code) × (AFTERGROUP ≡ aftergroup_code)
        × (UPPERCASE ≡ uppercase_code) × (LOWERCASE ≡ lowercase_code) }
    ensures groups { (RELAX ≡ relax_code) × (BEGINGROUP ≡ begingroup_code) × (ENDGROUP ≡ endgroup_code)
        × (ENDCSNAME ≡ endcsname_code) × (PAR ≡ par_code) × (END ≡ end_code)
        × (IGNORESPACES ≡ ignorespaces_code) × (MESSAGE ≡ message_code) × (ERRMESSAGE ≡ errmessage_code)
        × (SHOW ≡ show_code) × (SHOWTHE ≡ showthe_code) × (OPENIN ≡ openin_code) × (CLOSEIN ≡ closein_code)
        × (OPENOUT ≡ openout_code) × (CLOSEOUT ≡ closeout_code) × (WRITE ≡ write_code)
        × (SPECIAL ≡ special_code) × (IMMEDIATE ≡ immediate_code) × (SHIPOUT ≡ shipout_code)
        × (MARK ≡ mark_code) }
    ensures boxes { (BOX ≡ box_code) × (COPY ≡ copy_code) × (LASTBOX ≡ lastbox_code) × (VSPLIT ≡ vsplit_code)
        × (HBOX ≡ hbox_code) × (VBOX ≡ vbox_code) × (VTOP ≡ vtop_code) × (UNHBOX ≡ unhbox_code)
        × (UNHCOPY ≡ unhcopy_code) × (UNVBOX ≡ unvbox_code) × (UNVCOPY ≡ unvcopy_code) × (RAISE ≡ raise_code)
        × (LOWER ≡ lower_code) × (MOVELEFT ≡ moveleft_code) × (MOVERIGHT ≡ moveright_code)
        × (LEADERS ≡ leaders_code) × (CLEADERS ≡ cleaders_code) × (XLEADERS ≡ xleaders_code)
        × (HRULE ≡ hrule_code) × (VRULE ≡ vrule_code) × (HSKIP ≡ hskip_code) × (HFIL ≡ hfil_code)
        × (HFILL ≡ hfill_code) × (HSS ≡ hss_code) × (HFILNEG ≡ hfilneg_code) × (VSKIP ≡ vskip_code)
        × (VFIL ≡ vfil_code) × (VFILL ≡ vfill_code) × (VSS ≡ vss_code) × (VFILNEG ≡ vfilneg_code)
        × (KERN ≡ kern_code) × (PENALTY ≡ penalty_code) × (UNPENALTY ≡ unpenalty_code)
        × (UNKERN ≡ unkern_code) × (UNSKIP ≡ unskip_code) × (INSERT ≡ insert_code) × (VADJUST ≡ vadjust_code)
        × (INDENT ≡ indent_code) × (NOINDENT ≡ noindent_code) × (CHAR ≡ char_code) × (ACCENT ≡ accent_code)
        × (DISCRETIONARY ≡ discretionary_code) × (DISCRETIONARY_HYPHEN ≡ discretionary_hyphen_code)
        × (ITALIC_CORRECTION ≡ italic_correction_code) × (NOBOUNDARY ≡ noboundary_code)
        × (CONTROL_SPACE ≡ control_space_code) }
    ensures left_out { (HALIGN ≡ halign_code) × (VALIGN ≡ valign_code) × (NOALIGN ≡ noalign_code) × (OMIT ≡ omit_code)
        × (SPAN ≡ span_code) × (CR ≡ cr_code) × (CRCR ≡ crcr_code) × (PATTERNS ≡ patterns_code)
        × (HYPHENATION ≡ hyphenation_code) × (SETLANGUAGE ≡ setlanguage_code) × (DUMP ≡ dump_code)
        × (SHOWBOX ≡ showbox_code) × (SHOWLISTS ≡ showlists_code) × (MATHCHAR ≡ mathchar_code)
        × (MATHACCENT ≡ mathaccent_code) × (DELIMITER ≡ delimiter_code) × (RADICAL ≡ radical_code)
        × (MSKIP ≡ mskip_code) × (MKERN ≡ mkern_code) × (MATHORD ≡ mathord_code) × (MATHOP ≡ mathop_code)
        × (MATHBIN ≡ mathbin_code) × (MATHREL ≡ mathrel_code) × (MATHOPEN ≡ mathopen_code)
        × (MATHCLOSE ≡ mathclose_code) × (MATHPUNCT ≡ mathpunct_code) × (MATHINNER ≡ mathinner_code)
        × (UNDERLINE ≡ underline_code) × (OVERLINE ≡ overline_code) × (MATHCHOICE ≡ mathchoice_code)
        × (DISPLAYSTYLE ≡ displaystyle_code) × (TEXTSTYLE ≡ textstyle_code) × (SCRIPTSTYLE ≡ scriptstyle_code)
        × (SCRIPTSCRIPTSTYLE ≡ scriptscriptstyle_code) × (LEFT ≡ left_code) × (RIGHT ≡ right_code)
        × (OVER ≡ over_code) × (ATOP ≡ atop_code) × (ABOVE ≡ above_code)
        × (OVERWITHDELIMS ≡ overwithdelims_code) × (ATOPWITHDELIMS ≡ atopwithdelims_code)
        × (ABOVEWITHDELIMS ≡ abovewithdelims_code) × (LIMITS ≡ limits_code) × (NOLIMITS ≡ nolimits_code)
        × (DISPLAYLIMITS ≡ displaylimits_code) × (NONSCRIPT ≡ nonscript_code) × (VCENTER ≡ vcenter_code)
        × (EQNO ≡ eqno_code) × (LEQNO ≡ leqno_code) }
    ensures etex_expandable { (UNEXPANDED ≡ unexpanded_code) × (DETOKENIZE ≡ detokenize_code) × (SCANTOKENS ≡ scantokens_code)
        × (UNLESS ≡ unless_code) × (IFDEFINED ≡ ifdefined_code) × (IFCSNAME ≡ ifcsname_code)
        × (IFFONTCHAR ≡ iffontchar_code) × (TOPMARKS ≡ topmarks_code) × (FIRSTMARKS ≡ firstmarks_code)
        × (BOTMARKS ≡ botmarks_code) × (SPLITFIRSTMARKS ≡ splitfirstmarks_code)
        × (SPLITBOTMARKS ≡ splitbotmarks_code) × (ETEX_REVISION ≡ etex_revision_code) }
    ensures etex_quantity { (NUMEXPR ≡ numexpr_code) × (DIMEXPR ≡ dimexpr_code) × (GLUEEXPR ≡ glueexpr_code)
        × (MUEXPR ≡ muexpr_code) × (GLUESTRETCH ≡ gluestretch_code) × (GLUESHRINK ≡ glueshrink_code)
        × (GLUESTRETCHORDER ≡ gluestretchorder_code) × (GLUESHRINKORDER ≡ glueshrinkorder_code)
        × (GLUETOMU ≡ gluetomu_code) × (MUTOGLUE ≡ mutoglue_code) × (FONTCHARWD ≡ fontcharwd_code)
        × (FONTCHARHT ≡ fontcharht_code) × (FONTCHARDP ≡ fontchardp_code) × (FONTCHARIC ≡ fontcharic_code)
        × (PARSHAPELENGTH ≡ parshapelength_code) × (PARSHAPEINDENT ≡ parshapeindent_code)
        × (PARSHAPEDIMEN ≡ parshapedimen_code) × (CURRENTGROUPLEVEL ≡ currentgrouplevel_code)
        × (CURRENTGROUPTYPE ≡ currentgrouptype_code) × (CURRENTIFLEVEL ≡ currentiflevel_code)
        × (CURRENTIFTYPE ≡ currentiftype_code) × (CURRENTIFBRANCH ≡ currentifbranch_code)
        × (LASTNODETYPE ≡ lastnodetype_code) × (INTERACTIONMODE ≡ interactionmode_code)
        × (ETEX_VERSION ≡ etex_version_code) × (INTERLINEPENALTIES ≡ interlinepenalties_code)
        × (CLUBPENALTIES ≡ clubpenalties_code) × (WIDOWPENALTIES ≡ widowpenalties_code)
        × (DISPLAYWIDOWPENALTIES ≡ displaywidowpenalties_code) × (TRACINGASSIGNS ≡ tracingassigns_code)
        × (TRACINGGROUPS ≡ tracinggroups_code) × (TRACINGIFS ≡ tracingifs_code)
        × (TRACINGSCANTOKENS ≡ tracingscantokens_code) × (TRACINGNESTING ≡ tracingnesting_code)
        × (SAVINGVDISCARDS ≡ savingvdiscards_code) × (SAVINGHYPHCODES ≡ savinghyphcodes_code)
        × (EVERYEOF ≡ everyeof_code) }
    ensures etex_other { (PROTECTED ≡ protected_code) × (MARKS ≡ marks_code) × (READLINE ≡ readline_code)
        × (SHOWTOKENS ≡ showtokens_code) × (PAGEDISCARDS ≡ pagediscards_code)
        × (SPLITDISCARDS ≡ splitdiscards_code) }
    ensures etex_left_out { (MIDDLE ≡ middle_code) × (PREDISPLAYDIRECTION ≡ predisplaydirection_code)
        × (LASTLINEFIT ≡ lastlinefit_code) × (TEXXET_STATE ≡ texxet_state_code) × (BEGIN_L ≡ begin_l_code)
        × (END_L ≡ end_l_code) × (BEGIN_R ≡ begin_r_code) × (END_R ≡ end_r_code)
        × (SHOWGROUPS ≡ showgroups_code) × (SHOWIFS ≡ showifs_code) }
{}
